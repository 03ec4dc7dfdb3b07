// The printout for a target: the answer's line, and a line for each moment of the run.
ghost use Rattle.std.specs.Prelude.{[], ◌∷◌, ◌≡◌, ◌≤◌, length, take};
ghost use Rattle.io.specs.Counts.{IsPrefixLen};
ghost use Rattle.columns.specs.declared.Sheet.TheVariants.{Plain};
ghost use Rattle.columns.specs.Columns.{file_bytes};
ghost use Rattle.claims.specs.Files.{target_files};
ghost use Rattle.claims.specs.AnswerNumbers.{reach_numbers};
ghost use Rattle.printout.specs.Document.{reach_bytes};
ghost use Rattle.printout.specs.PrintedLines.{moments as moments_in, moment_count, reach_printed};
ghost use Rattle.printout.specs.Text.{Put, ReachText};

use crate::files::{Printed, read_file};
use crate::text::{put_line, put_moments};
use checker::Reaching;
use columns::Sheet;
use refusals::Refusal;
use std::io;
use std::rt::Files;

// The moments of the run, if there is one: the start, and one for each step.
fn moments(reply: Result<Reaching, Refusal>) -> usize
    requires { moment_count reply ≤ 10785 }
    ensures { result ≡ moment_count reply }
{
    match reply {
        Ok(Reaching::Reached { steps, reached: _ }) => steps + 1,
        Ok(Reaching::Never { reached: _ }) | Err(_) => 0,
    }
}

// Writes document 01's numbers of the answer on the first line; returns where it ends.
fn put_first(text: &mut [u8], reply: Result<Reaching, Refusal>) -> usize
    requires { (moment_count reply ≤ 10785) × (25 ≤ length text.old) }
    ensures { (result ≤ 25) × Put (file_bytes Plain (reach_numbers reply ∷ [])) 0 result text.old text.new }
{
    match reply {
        Ok(Reaching::Never { reached }) => put_line(text, 0, Sheet::Plain, &[0, 0, reached]),
        Ok(Reaching::Reached { steps, reached }) => {
            put_line(text, 0, Sheet::Plain, &[1, steps as u32, reached])
        }
        Err(r) => put_line(text, 0, Sheet::Plain, &[2, r.number, r.file, r.line]),
    }
}

// Writes the lines of an answer and its run; returns where they end.
fn put_answer(text: &mut [u8], reply: Result<Reaching, Refusal>, slots: &[u32]) -> usize
    requires { (moment_count reply ≤ 10785) × (1240300 ≤ length text.old) × (129420 ≤ length slots.now) }
    ensures { Put (reach_bytes (reach_numbers reply ∷ moments_in (moment_count reply) slots.now)) 0 result text.old text.new
        × IsPrefixLen result text.new }
{
    let at = put_first(text, reply);
    put_moments(text, at, slots, moments(reply))
}

// Writes the printout for the bytes of a table and a target; returns how long it is.
pub fn reach_text(table: &[u8], target: &[u8], text: &mut [u8]) -> usize
    requires { 1240300 ≤ length text.old }
    ensures { ReachText table.now target.now result text.old text.new }
{
    let mut words = [0u32; 337];
    let mut least = [0u16; 10784];
    let mut links = [0u16; 10784];
    let mut run = [0u32; 97061];
    let mut slots = [0u32; 129420];
    let reply = checker::reach(
        table, target, &mut words, &mut least, &mut links, &mut run, &mut slots,
    );
    put_answer(text, reply, &slots)
}

// Hands over the printout for these bytes of a table and a target.
fn hand_over(rt: &impl Print, table: &[u8], target: &[u8], text: &[u8]) -> io::Result<()>
    requires { text.now ≡ reach_bytes (reach_printed (target_files table.now target.now)) }
{
    rt.write_all(text)
}

// Prints the answer for the files of these names: reads both into lent bytes, and hands the printout for what was read over, all at once.
pub fn print_reaching_over<R: Files + Print>(
    rt: &R,
    table_name: &[u8],
    target_name: &[u8],
    table: &mut [u8],
    target: &mut [u8],
    text: &mut [u8],
) -> Printed
    requires { (40001 ≤ length table.old) × (310 ≤ length target.old) × (1240300 ≤ length text.old) }
    ensures { ReachText (take result.table table.new) (take result.other target.new) result.text text.old text.new }
{
    let t = read_file(rt, table_name, table);
    let g = read_file(rt, target_name, target);
    let n = reach_text(&table[..t], &target[..g], text);
    let written = hand_over(rt, &table[..t], &target[..g], &text[..n]);
    Printed {
        table: t,
        other: g,
        text: n,
        written,
    }
}

// The same, over memory of its own.
pub fn print_reaching<R: Files + Print>(
    rt: &R,
    table_name: &[u8],
    target_name: &[u8],
) -> io::Result<()> {
    let mut table = [0u8; 40001];
    let mut target = [0u8; 310];
    let mut text = [b' '; 1240300];
    let printed = print_reaching_over(
        rt,
        table_name,
        target_name,
        &mut table,
        &mut target,
        &mut text,
    );
    printed.written
}
