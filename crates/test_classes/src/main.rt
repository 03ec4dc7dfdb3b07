// Tries the seven calls on contents, classes and matrices: compares what they give with the independent engine's results, and prints for each call how many cases were answered, how many were refused by which number, and how many differ.
// Then every class of every number of registers and constants, with several constants: six calls for each.
// All of a reply is compared, and all of a buffer of which the first part is lent.
#![tactic(auto)]

use checker::Refusal;
use std::io;
use std::io::Read;
use std::rt::Files;
use trial::{FILL, FILL8, START};

// A case's header: ten fields (the engine's src/trials/classes.rs says what they are).
const HEADER: usize = 170;

// The header of a sweep: four fields.
const SWEEP: usize = 68;

// What a call gave: 0 or the refusal's number, and the digest of all of it.
#[derive(Clone, Copy)]
struct Outcome {
    reply: u32,
    digest: u64,
}

fn refused(h: u64, r: Refusal) -> Outcome {
    Outcome {
        reply: r.number,
        digest: trial::mix(trial::mix(trial::mix(h, r.number), r.file), r.line),
    }
}

fn of_number(reply: Result<usize, Refusal>) -> Outcome {
    match reply {
        Ok(n) => Outcome {
            reply: 0,
            digest: trial::mix_wide(START, n as u64),
        },
        Err(r) => refused(START, r),
    }
}

// With the digest of the buffer.
fn of_written(reply: Result<(), Refusal>, h: u64) -> Outcome {
    match reply {
        Ok(()) => Outcome {
            reply: 0,
            digest: h,
        },
        Err(r) => refused(h, r),
    }
}

fn class_count(registers: u32, constants: u32) -> Outcome {
    of_number(checker::class_count(registers, constants))
}

fn class_of(registers: u32, constants: &[u32], contents: &[u32]) -> Outcome {
    of_number(checker::class_of(registers, constants, contents))
}

fn contents_of(
    registers: u32,
    constants: &[u32],
    class: usize,
    room: usize,
    out: &mut [u32],
) -> Outcome {
    let reply = checker::contents_of(registers, constants, class, trial::lend(out, room));
    of_written(reply, trial::digest(START, out))
}

fn matrix_of(
    registers: u32,
    constants: &[u32],
    contents: &[u32],
    room: usize,
    out: &mut [u8],
) -> Outcome {
    let reply = checker::matrix_of(registers, constants, contents, trial::lend(out, room));
    of_written(reply, trial::digest(START, out))
}

fn matrix_of_class(
    registers: u32,
    constants: u32,
    class: usize,
    room: usize,
    out: &mut [u8],
) -> Outcome {
    let reply = checker::matrix_of_class(registers, constants, class, trial::lend(out, room));
    of_written(reply, trial::digest(START, out))
}

fn class_of_matrix(registers: u32, constants: u32, matrix: &[u8]) -> Outcome {
    of_number(checker::class_of_matrix(registers, constants, matrix))
}

fn contents_of_matrix(
    registers: u32,
    constants: &[u32],
    matrix: &[u8],
    room: usize,
    out: &mut [u32],
) -> Outcome {
    let reply = checker::contents_of_matrix(registers, constants, matrix, trial::lend(out, room));
    of_written(reply, trial::digest(START, out))
}

// The calls that write contents.
fn try_contents(header: &[u8], constants: &[u32], matrix: &[u8]) -> Outcome {
    let mut out = [FILL; 16];
    let registers = trial::number(header, 1);
    let room = trial::field(header, 7) as usize;
    if trial::field(header, 0) == 3 {
        return contents_of(
            registers,
            constants,
            trial::field(header, 3) as usize,
            room,
            &mut out,
        );
    }
    contents_of_matrix(registers, constants, matrix, room, &mut out)
}

// The calls that write a matrix.
fn try_matrix(header: &[u8], constants: &[u32], contents: &[u32]) -> Outcome {
    let mut out = [FILL8; 64];
    let registers = trial::number(header, 1);
    let room = trial::field(header, 7) as usize;
    if trial::field(header, 0) == 4 {
        return matrix_of(registers, constants, contents, room, &mut out);
    }
    matrix_of_class(
        registers,
        trial::number(header, 2),
        trial::field(header, 3) as usize,
        room,
        &mut out,
    )
}

// The call that a header names.
fn try_call(header: &[u8], constants: &[u32], contents: &[u32], matrix: &[u8]) -> Outcome {
    let registers = trial::number(header, 1);
    let count = trial::number(header, 2);
    match trial::number(header, 0) {
        1 => class_count(registers, count),
        2 => class_of(registers, constants, contents),
        4 | 5 => try_matrix(header, constants, contents),
        6 => class_of_matrix(registers, count, matrix),
        _ => try_contents(header, constants, matrix),
    }
}

// The column of a reply: an answer, then the refusals.
fn column(reply: u32) -> usize {
    match reply {
        0 => 1,
        9 => 2,
        3 => 3,
        4 => 4,
        5 => 5,
        10 => 6,
        _ => 8,
    }
}

// Counts a case, and names one that differs.
fn count(
    rt: &impl Print,
    counts: &mut [u32],
    header: &[u8],
    case: u32,
    seen: Outcome,
) -> io::Result<()> {
    trial::add(counts, 0, 1);
    trial::add(counts, column(seen.reply), 1);
    if !trial::tells(header, 8, &[seen.reply as u64, seen.digest]) {
        trial::add(counts, 7, 1);
        trial::show(rt, b"differs           ", &[case, seen.reply])?;
    }
    Ok(())
}

// The case behind a header.
fn try_case<F: Read>(
    rt: &impl Print,
    file: &mut F,
    header: &[u8; 170],
    counts: &mut [u32],
    case: u32,
) -> io::Result<()> {
    let mut constants = [0u32; 8];
    let mut contents = [0u32; 8];
    let mut matrix = [0u8; 64];
    let c = trial::take_numbers(file, trial::field(header, 4), &mut constants);
    let n = trial::take_numbers(file, trial::field(header, 5), &mut contents);
    let m = trial::take(file, &mut matrix, trial::field(header, 6));
    let seen = try_call(
        header,
        trial::front(&constants, c),
        trial::front(&contents, n),
        trial::front(&matrix, m),
    );
    count(rt, counts, header, case, seen)
}

// The next case, if there is one.
fn next_case<F: Read>(
    rt: &impl Print,
    file: &mut F,
    counts: &mut [u32],
    case: u32,
) -> io::Result<bool> {
    let mut header = [b'0'; 170];
    if trial::read_full(file, &mut header) < HEADER {
        return Ok(false);
    }
    try_case(rt, file, &header, counts, case)?;
    Ok(true)
}

// A call: its file has its name.
fn group<R: Files + Print>(rt: &R, path: &[u8], name: &[u8]) -> io::Result<()> {
    let mut counts = [0u32; 8];
    if let Some(mut file) = trial::open(rt, path) {
        trial::each_case(|case| next_case(rt, &mut file, &mut counts, case))?;
    }
    trial::show(rt, name, &counts)
}

// The entries of a matrix.
fn square(registers: u32) -> usize {
    match registers {
        0 => 0,
        1 => 1,
        2 => 4,
        3 => 9,
        4 => 16,
        _ => 25,
    }
}

// A length, or one more for every second class.
fn room(n: usize, class: usize) -> usize {
    std::num::wrapping_add_usize(n, class % 2)
}

// Of a class: its contents, and the class and the matrix of those.
fn sweep_contents(h: u64, registers: u32, constants: &[u32], class: usize) -> u64 {
    let mut contents = [FILL; 16];
    let mut matrix = [FILL8; 64];
    let r = registers as usize;
    let a = contents_of(registers, constants, class, room(r, class), &mut contents);
    let held = trial::front(&contents, r);
    let b = class_of(registers, constants, held);
    let c = matrix_of(
        registers,
        constants,
        held,
        room(square(registers), class),
        &mut matrix,
    );
    trial::mix_wide(
        trial::mix_wide(trial::mix_wide(h, a.digest), b.digest),
        c.digest,
    )
}

// Of a class: its matrix, and the class and the contents of that.
fn sweep_matrix(h: u64, registers: u32, constants: &[u32], count: u32, class: usize) -> u64 {
    let mut contents = [FILL; 16];
    let mut matrix = [FILL8; 64];
    let r = registers as usize;
    let a = matrix_of_class(
        registers,
        count,
        class,
        room(square(registers), class),
        &mut matrix,
    );
    let entries = trial::front(&matrix, square(registers));
    let b = class_of_matrix(registers, count, entries);
    let c = contents_of_matrix(registers, constants, entries, room(r, class), &mut contents);
    trial::mix_wide(
        trial::mix_wide(trial::mix_wide(h, a.digest), b.digest),
        c.digest,
    )
}

// The digest of so many classes, and of the number behind the last.
fn sweep(registers: u32, constants: &[u32], count: u32, classes: u32) -> u64 {
    let last = classes % 1000;
    let mut h = START;
    for class in 0..last as usize + 1 {
        h = sweep_contents(h, registers, constants, class);
        h = sweep_matrix(h, registers, constants, count, class);
    }
    h
}

// How many classes the call says there are.
fn classes_of(registers: u32, constants: u32) -> u32 {
    match checker::class_count(registers, constants) {
        Ok(n) => (n % 1000) as u32,
        Err(_) => 0,
    }
}

// The sweep behind a header: counts it, its classes, and whether it differs.
fn try_sweep<F: Read>(file: &mut F, header: &[u8; 68], counts: &mut [u32]) {
    let mut constants = [0u32; 8];
    let registers = trial::number(header, 0);
    let count = trial::number(header, 1);
    let n = trial::take_numbers(file, count as u64, &mut constants);
    let classes = classes_of(registers, count);
    let seen = sweep(registers, trial::front(&constants, n), count, classes);
    count_sweep(
        counts,
        trial::tells(header, 2, &[classes as u64, seen]),
        classes,
    );
}

fn count_sweep(counts: &mut [u32], same: bool, classes: u32) {
    trial::add(counts, 0, 1);
    trial::add(counts, 1, classes);
    if !same {
        trial::add(counts, 2, 1);
    }
}

// The next sweep, if there is one.
fn next_sweep<F: Read>(file: &mut F, counts: &mut [u32]) -> bool {
    let mut header = [b'0'; 68];
    if trial::read_full(file, &mut header) < SWEEP {
        return false;
    }
    try_sweep(file, &header, counts);
    true
}

// All sweeps of an open file, a hundred at most.
fn try_sweeps<F: Read>(file: &mut F, counts: &mut [u32]) {
    for _ in 0..100 {
        if !next_sweep(file, counts) {
            break;
        }
    }
}

fn show_sweeps(rt: &impl Print, counts: &[u32; 3]) -> io::Result<()> {
    rt.write_all(b"every class         sweeps classes  differ\n")?;
    trial::show(rt, b"                  ", counts)
}

fn sweeps<R: Files + Print>(rt: &R) -> io::Result<()> {
    let mut counts = [0u32; 3];
    if let Some(mut file) = trial::open(rt, b"sweeps") {
        try_sweeps(&mut file, &mut counts);
    }
    show_sweeps(rt, &counts)
}

fn main(rt: HostRuntime) -> io::Result<()> {
    rt.write_all(
        b"call                 cases  answer       9       3       4       5      10  differ\n",
    )?;
    group(&rt, b"class_count", b"class_count       ")?;
    group(&rt, b"class_of", b"class_of          ")?;
    group(&rt, b"contents_of", b"contents_of       ")?;
    group(&rt, b"matrix_of", b"matrix_of         ")?;
    group(&rt, b"matrix_of_class", b"matrix_of_class   ")?;
    group(&rt, b"class_of_matrix", b"class_of_matrix   ")?;
    group(&rt, b"contents_of_matrix", b"contents_of_matrix")?;
    sweeps(&rt)
}
