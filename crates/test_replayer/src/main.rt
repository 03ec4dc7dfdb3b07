// Tries the replayer: prints for each case its number, the reply of `checker::replay` to the list as it stands, and that of `checker::replay_steps` to its start and its steps.
#![tactic(auto)]

ghost use Rattle.std.specs.Prelude.{◌≡◌, ◌≤◌, take};
ghost use Rattle.claims.specs.Replaying.{replay_steps_reply};

use checker::{Refusal, Verdict};
use replay::Step;
use std::io;
use std::io::Read;

// A case's header: three fields (the engine's src/trials/replayer.rs says what they are).
const HEADER: usize = 51;

// The first n of an array of steps by value, lent: whoever calls it holds no reference to a step.
fn replay_first(
    table: &[u8],
    start: [u32; 5],
    run: [Step; 24],
    n: usize,
) -> Result<Verdict, Refusal>
    requires { n ≤ 24 }
    ensures { result ≡ replay_steps_reply table.now start (take n run) }
{
    checker::replay_steps(table, start, &run[..n])
}

// A reply as it is printed: 1 good; 0 and the first bad moment; or 2 and the refusal's numbers.
fn numbers_of(reply: Result<Verdict, Refusal>) -> [u32; 4] {
    match reply {
        Ok(Verdict::Good) => [1, 0, 0, 0],
        Ok(Verdict::Bad(moment)) => [0, (moment % 1000000) as u32, 0, 0],
        Err(r) => [2, r.number, r.file, r.line],
    }
}

fn show(rt: &impl Print, case: u32, list: [u32; 4], steps: [u32; 4]) -> io::Result<()> {
    trial::show(
        rt,
        b"",
        &[
            case, list[0], list[1], list[2], list[3], steps[0], steps[1], steps[2], steps[3],
        ],
    )
}

// The step in nine numbers from this place on.
fn step_at(list: &[u32; 221], at: usize) -> Step {
    let i = at % 213;
    let params = [list[i + 1], list[i + 2], list[i + 3]];
    let next = [
        list[i + 4],
        list[i + 5],
        list[i + 6],
        list[i + 7],
        list[i + 8],
    ];
    Step {
        arc: list[i],
        params,
        next,
    }
}

// The steps of a list, behind its start.
fn steps_of(list: &[u32; 221]) -> [Step; 24] {
    let mut run = [step_at(list, 5); 24];
    for i in 0..24 {
        run[i] = step_at(list, 5 + 9 * i);
    }
    run
}

// How many steps a list of this length has.
fn steps_in(n: usize) -> usize
    ensures { result ≤ 24 }
{
    if n < 5 {
        return 0;
    }
    (n - 5) / 9 % 25
}

// The reply to start and steps.
fn try_steps(table: &[u8], list: &[u32; 221], n: usize) -> [u32; 4] {
    let start = [list[0], list[1], list[2], list[3], list[4]];
    numbers_of(replay_first(table, start, steps_of(list), steps_in(n)))
}

// The reply to the list.
fn try_list(table: &[u8], list: &[u32]) -> [u32; 4] {
    numbers_of(checker::replay(table, list))
}

// The case behind a header: behind the table's bytes stand bytes 10.
fn try_case<F: Read>(
    rt: &impl Print,
    file: &mut F,
    header: &[u8; 51],
    case: u32,
) -> io::Result<()> {
    let mut table = [10u8; 41000];
    let mut list = [0u32; 221];
    trial::take(file, &mut table, trial::field(header, 0));
    let bytes = trial::front(&table, trial::field(header, 1) as usize);
    let n = trial::take_numbers(file, trial::field(header, 2), &mut list);
    let whole = try_list(bytes, trial::front(&list, n));
    let steps = try_steps(bytes, &list, n);
    show(rt, case, whole, steps)
}

// The next case, if there is one.
fn next_case<F: Read>(rt: &impl Print, file: &mut F, case: u32) -> io::Result<bool> {
    let mut header = [b'0'; 51];
    if trial::read_full(file, &mut header) < HEADER {
        return Ok(false);
    }
    try_case(rt, file, &header, case)?;
    Ok(true)
}

// All cases of an open file, a thousand at most.
fn try_cases<F: Read>(rt: &impl Print, file: &mut F) -> io::Result<()> {
    for case in 1..=1000 {
        if !next_case(rt, file, case)? {
            break;
        }
    }
    Ok(())
}

fn main(rt: HostRuntime) -> io::Result<()> {
    if let Some(mut file) = trial::open(&rt, b"cases") {
        try_cases(&rt, &mut file)?;
    }
    Ok(())
}
