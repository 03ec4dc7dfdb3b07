// The printout for a question, in either notation: one line.
ghost use Rattle.std.specs.Prelude.{[], ◌∷◌, ◌≡◌, ◌≤◌, ◌<◌, length, take};
ghost use Rattle.io.specs.Counts.{IsPrefixLen};
ghost use Rattle.columns.specs.declared.Sheet.TheVariants.{Answer};
ghost use Rattle.columns.specs.Columns.{file_bytes};
ghost use Rattle.refusals.specs.Judged.{Judged};
ghost use Rattle.claims.specs.Files.{WithQuestion, question_files, AskBuffers, ask_buffers, ask_files};
ghost use Rattle.claims.specs.AskReply.{ask_reply, ask_contents};
ghost use Rattle.claims.specs.AnswerNumbers.{ask_numbers};
ghost use Rattle.printout.specs.PrintedLines.{class_of, ask_printed};
ghost use Rattle.printout.specs.Text.{Put, AskText};

use crate::files::{Printed, read_file};
use crate::text::put_line;
use checker::Asking;
use claims::Notation;
use columns::Sheet;
use refusals::Refusal;
use std::io;
use std::rt::Files;

// Writes document 01's numbers of the answer: of the contents, as many as there are registers. Returns where the line ends.
fn put_answer(text: &mut [u8], reply: Result<Asking, Refusal>, contents: [u32; 5]) -> usize
    requires { (class_of reply < 1000000) × (73 ≤ length text.old) }
    ensures { Put (file_bytes Answer (ask_numbers reply contents ∷ [])) 0 result text.old text.new × IsPrefixLen result text.new }
{
    match reply {
        Ok(Asking::Yes) => put_line(text, 0, Sheet::Answer, &[1]),
        Ok(Asking::No { class, registers }) => {
            let values = [
                0,
                class as u32,
                contents[0],
                contents[1],
                contents[2],
                contents[3],
                contents[4],
            ];
            put_line(text, 0, Sheet::Answer, &values[..2 + registers.min(5)])
        }
        Err(r) => put_line(text, 0, Sheet::Answer, &[2, r.number, r.file, r.line]),
    }
}

// Stays: one match on the notation, which the functions around it pass on.
// The checker's call on a question in this notation.
fn ask_in(
    notation: Notation,
    table: &[u8],
    question: &[u8],
    rows: &mut [u32],
    contents: &mut [u32; 5],
) -> Result<Asking, Refusal>
    ensures { let before : AskBuffers = ask_buffers rows.old contents.old in
        let f : Judged WithQuestion = ask_files notation before table.now question.now in
        (result ≡ ask_reply f) × (contents.new ≡ ask_contents f before.contents) }
{
    match notation {
        Notation::Rows => checker::ask(table, question, rows, contents),
        Notation::Text => checker::ask_text(table, question, rows, contents),
    }
}

// Writes the printout for the bytes of a table and a question, over lent memory for its rows; returns how long it is.
fn put_asking_over(
    notation: Notation,
    table: &[u8],
    question: &[u8],
    rows: &mut [u32],
    text: &mut [u8],
) -> usize
    requires { (10784 ≤ length rows.old) × (73 ≤ length text.old) }
    ensures { AskText notation table.now question.now result text.old text.new }
{
    let mut contents = [0u32; 5];
    let reply = ask_in(notation, table, question, rows, &mut contents);
    put_answer(text, reply, contents)
}

// The same, over memory of its own.
pub fn put_asking(notation: Notation, table: &[u8], question: &[u8], text: &mut [u8]) -> usize
    requires { 73 ≤ length text.old }
    ensures { AskText notation table.now question.now result text.old text.new }
{
    let mut rows = [0u32; 10784];
    put_asking_over(notation, table, question, &mut rows, text)
}

// Hands over the printout for these bytes of a table and a question.
fn hand_over(
    rt: &impl Print,
    notation: Notation,
    table: &[u8],
    question: &[u8],
    text: &[u8],
) -> io::Result<()>
    requires { text.now ≡ file_bytes Answer (ask_printed (question_files notation table.now question.now)) }
{
    rt.write_all(text)
}

// Prints the answer for the files of these names: reads both into lent bytes, and hands the printout for what was read over, all at once. Of the
// question 609 bytes are more than either notation allows.
pub fn print_asking_over<R: Files + Print>(
    rt: &R,
    notation: Notation,
    table_name: &[u8],
    question_name: &[u8],
    table: &mut [u8],
    question: &mut [u8],
    text: &mut [u8],
) -> Printed
    requires { (40001 ≤ length table.old) × (609 ≤ length question.old) × (73 ≤ length text.old) }
    ensures { AskText notation (take result.table table.new) (take result.other question.new) result.text text.old text.new }
{
    let t = read_file(rt, table_name, table);
    let q = read_file(rt, question_name, question);
    let n = put_asking(notation, &table[..t], &question[..q], text);
    let written = hand_over(rt, notation, &table[..t], &question[..q], &text[..n]);
    Printed {
        table: t,
        other: q,
        text: n,
        written,
    }
}

// The same, over memory of its own.
fn print_in<R: Files + Print>(
    rt: &R,
    notation: Notation,
    table_name: &[u8],
    question_name: &[u8],
) -> io::Result<()> {
    let mut table = [0u8; 40001];
    let mut question = [0u8; 609];
    let mut text = [b' '; 73];
    let printed = print_asking_over(
        rt,
        notation,
        table_name,
        question_name,
        &mut table,
        &mut question,
        &mut text,
    );
    printed.written
}

// Prints the answer to a question that is a file of rows.
pub fn print_asking<R: Files + Print>(
    rt: &R,
    table_name: &[u8],
    question_name: &[u8],
) -> io::Result<()> {
    print_in(rt, Notation::Rows, table_name, question_name)
}

// Prints the answer to a question that is a line of text.
pub fn print_asking_text<R: Files + Print>(
    rt: &R,
    table_name: &[u8],
    text_name: &[u8],
) -> io::Result<()> {
    print_in(rt, Notation::Text, table_name, text_name)
}
