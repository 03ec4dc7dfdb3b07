// Tries `step` and `successors`: compares what they give for tables with the independent engine's results, and prints how many steps there were and were not, how many rows of successors were written, how many calls were refused, and how many cases differ.
// All of a reply is compared, and all of a buffer of which the first words are lent.
#![tactic(auto)]

use checker::Refusal;
use std::io;
use std::io::Read;
use std::rt::Files;
use trial::{FILL, START};

// A case's header: twenty fields (the engine's src/trials/steps.rs says what they are). A probe has six: first number, stride, count, length of the buffer, digest of the steps, digest of the successors.
const HEADER: usize = 340;

// What the calls of a probe gave so far: the digests of steps and successors.
#[derive(Clone, Copy)]
struct Seen {
    steps: u64,
    rows: u64,
}

fn mix_refusal(h: u64, r: Refusal) -> u64 {
    trial::mix(trial::mix(trial::mix(h, r.number), r.file), r.line)
}

// One step more: counted, and in the digest.
fn try_step(h: u64, table: &[u8], from: u32, to: u32, counts: &mut [u32]) -> u64 {
    match checker::step(table, from, to) {
        Ok(true) => {
            trial::add(counts, 1, 1);
            trial::mix(h, 1)
        }
        Ok(false) => {
            trial::add(counts, 2, 1);
            trial::mix(h, 0)
        }
        Err(r) => {
            trial::add(counts, 3, 1);
            mix_refusal(trial::mix(h, 2), r)
        }
    }
}

// One row of successors more.
fn try_successors(h: u64, table: &[u8], from: u32, room: usize, counts: &mut [u32]) -> u64 {
    let mut out = [FILL; 340];
    let reply = checker::successors(table, from, trial::lend(&mut out, room));
    let d = trial::digest(h, &out);
    match reply {
        Ok(()) => {
            trial::add(counts, 4, 1);
            d
        }
        Err(r) => {
            trial::add(counts, 5, 1);
            mix_refusal(d, r)
        }
    }
}

// The steps from one number to each of a probe's.
fn try_row(
    h: u64,
    table: &[u8],
    from: u32,
    first: u32,
    stride: u32,
    count: u32,
    counts: &mut [u32],
) -> u64 {
    let mut d = h;
    let mut to = first;
    for _ in 0..count {
        d = try_step(d, table, from, to, counts);
        to = std::num::wrapping_add_u32(to, stride);
    }
    d
}

// All numbers of a probe.
fn try_probe(
    table: &[u8],
    first: u32,
    stride: u32,
    count: u32,
    room: usize,
    counts: &mut [u32],
) -> Seen {
    let mut steps = START;
    let mut rows = START;
    let mut from = first;
    for _ in 0..count {
        rows = try_successors(rows, table, from, room, counts);
        steps = try_row(steps, table, from, first, stride, count, counts);
        from = std::num::wrapping_add_u32(from, stride);
    }
    Seen { steps, rows }
}

// Whether the probe whose fields begin here is as expected.
fn same_probe(table: &[u8], header: &[u8], at: usize, counts: &mut [u32]) -> bool {
    let seen = try_probe(
        table,
        trial::number(header, at),
        trial::number(header, std::num::wrapping_add_usize(at, 1)),
        trial::number(header, std::num::wrapping_add_usize(at, 2)),
        trial::number(header, std::num::wrapping_add_usize(at, 3)) as usize,
        counts,
    );
    trial::tells(
        header,
        std::num::wrapping_add_usize(at, 4),
        &[seen.steps, seen.rows],
    )
}

// Counts a case, and names one that differs.
fn count(rt: &impl Print, counts: &mut [u32], case: u32, same: bool) -> io::Result<()> {
    trial::add(counts, 0, 1);
    if !same {
        trial::add(counts, 6, 1);
        trial::show(rt, b"differs ", &[case])?;
    }
    Ok(())
}

// The probes of a table.
fn try_probes(
    rt: &impl Print,
    table: &[u8],
    header: &[u8],
    counts: &mut [u32],
    case: u32,
) -> io::Result<()> {
    let first = same_probe(table, header, 2, counts);
    let second = same_probe(table, header, 8, counts);
    let third = same_probe(table, header, 14, counts);
    count(rt, counts, case, first & second & third)
}

// The case behind a header: behind the table's bytes stand bytes 10.
fn try_case<F: Read>(
    rt: &impl Print,
    file: &mut F,
    header: &[u8; 340],
    counts: &mut [u32],
    case: u32,
) -> io::Result<()> {
    let mut table = [10u8; 41000];
    trial::take(file, &mut table, trial::field(header, 0));
    try_probes(
        rt,
        trial::front(&table, trial::field(header, 1) as usize),
        header,
        counts,
        case,
    )
}

// The next case, if there is one.
fn next_case<F: Read>(
    rt: &impl Print,
    file: &mut F,
    counts: &mut [u32],
    case: u32,
) -> io::Result<bool> {
    let mut header = [b'0'; 340];
    if trial::read_full(file, &mut header) < HEADER {
        return Ok(false);
    }
    try_case(rt, file, &header, counts, case)?;
    Ok(true)
}

// A group: its file has its name.
fn group<R: Files + Print>(rt: &R, path: &[u8], name: &[u8]) -> io::Result<()> {
    let mut counts = [0u32; 7];
    if let Some(mut file) = trial::open(rt, path) {
        trial::each_case(|case| next_case(rt, &mut file, &mut counts, case))?;
    }
    trial::show(rt, name, &counts)
}

fn main(rt: HostRuntime) -> io::Result<()> {
    rt.write_all(b"group      cases     yes      no refused written refused  differ\n")?;
    group(&rt, b"valid", b"valid   ")?;
    group(&rt, b"damaged", b"damaged ")
}
