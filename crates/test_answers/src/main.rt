// Prints the answers for the cases of the data folder, one after another: a line with the case's number, then its printout.
#![tactic(auto)]

use std::io;
use std::rt::Files;

// The files 01.table, 01.target, 02.table, .. (the engine's src/trials/answers.rs says what each case is). Cases 1 to 10, 18, 19 and 37 to 43 have a target, 22 to 36, 46 and 47 a question as text (22.text), the others a question.
// In cases 9, 10, 15, 16, 33, 34 a file is missing, in cases 18 to 21, 35 and 36 a folder stands in its place.
const CASES: u32 = 47;

fn digit(n: u32) -> u8 {
    48 + (n % 10) as u8
}

// A case of a target.
fn reach_case<R: Files + Print>(rt: &R, a: u8, b: u8) -> io::Result<()> {
    printout::print_reaching(
        rt,
        &[a, b, b'.', b't', b'a', b'b', b'l', b'e'],
        &[a, b, b'.', b't', b'a', b'r', b'g', b'e', b't'],
    )
}

// A case of a question.
fn ask_case<R: Files + Print>(rt: &R, a: u8, b: u8) -> io::Result<()> {
    printout::print_asking(
        rt,
        &[a, b, b'.', b't', b'a', b'b', b'l', b'e'],
        &[a, b, b'.', b'q', b'u', b'e', b's', b't', b'i', b'o', b'n'],
    )
}

// A case of a question as text.
fn text_case<R: Files + Print>(rt: &R, a: u8, b: u8) -> io::Result<()> {
    printout::print_asking_text(
        rt,
        &[a, b, b'.', b't', b'a', b'b', b'l', b'e'],
        &[a, b, b'.', b't', b'e', b'x', b't'],
    )
}

fn has_target(i: u32) -> bool {
    i <= 10 || matches!(i, 18 | 19 | 37..=43)
}

fn has_text(i: u32) -> bool {
    matches!(i, 22..=36) || 46 <= i
}

fn show<R: Files + Print>(rt: &R, i: u32) -> io::Result<()> {
    printout::print_line(rt, i)?;
    let a = digit(i / 10);
    let b = digit(i);
    if has_target(i) {
        return reach_case(rt, a, b);
    }
    if has_text(i) {
        return text_case(rt, a, b);
    }
    ask_case(rt, a, b)
}

// All cases, as long as they can be written.
fn show_all<R: Files + Print>(rt: &R) -> io::Result<()> {
    for i in 1..=CASES {
        show(rt, i)?;
    }
    Ok(())
}

// A write that fails ends the printout, and is told to nobody.
fn main(rt: HostRuntime) {
    let _ = show_all(&rt);
}
