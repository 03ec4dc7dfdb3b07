// The calls on a table and a question, in either notation: its rows over all configurations, and whether it holds at every permitted start.
ghost use Rattle.std.specs.Prelude.{List, Ok, ◌≡◌, ℕ, ◌≤◌, T, length};
ghost use Rattle.std.proofs.Math.Option.{Option};
ghost use Rattle.automata.specs.Automaton.{Automaton};
ghost use Rattle.automata.specs.Questions.{Row, question as asked, row_formulas};
ghost use Rattle.automata.specs.Configurations.{classes};
ghost use Rattle.automata.specs.Answers.{failing};
ghost use Rattle.automata.specs.WellFormed.{fits_question};
ghost use Rattle.forms.specs.FormAutomaton.{automaton_of};
ghost use Rattle.forms.specs.QuestionForm.{rows_of};
ghost use Rattle.forms.specs.Readable.{Readable};
ghost use Rattle.questions.specs.QuestionReply.{reply_of, form_of};
ghost use Rattle.forms.specs.ClassLabels.{Lent};
ghost use Rattle.answers.specs.Rows.{shown};
ghost use Rattle.claims.specs.Files.{question_to, AskBuffers, ask_buffers};
ghost use Rattle.claims.specs.AskReply.{asked_reply, asked_contents};
ghost use Rattle.claims.specs.Demand.{AskPromise};
ghost use Rattle.claims.specs.declared.Notation.TheVariants.{Rows, Text};

use crate::given::classes_in;
use claims::{Asking, Notation};
use refusals::Refusal;

// Asks a question of an opened table.
fn answer(
    form: &[u32],
    cat: &[u8],
    question: &[u32],
    count: usize,
    rows: &mut [u32],
    contents: &mut [u32; 5],
) -> Asking
    requires { let a : Automaton = automaton_of form.now in
        Lent form.now cat.now (length (classes a)) × (length question.now ≡ 96) × (count ≤ 32) × T (fits_question a (rows_of question.now count))
        × (10784 ≤ length rows.old) }
    ensures { let a : Automaton = automaton_of form.now in
        let rs : List Row = rows_of question.now count in
        let k : Option ℕ = failing a (asked rs) in
        (Ok result ≡ asked_reply a k)
        × (rows.new ≡ shown a (row_formulas rs) rows.old)
        × (contents.new ≡ asked_contents a k contents.old) }
{
    let n = classes_in(form);
    sets::clear(rows, 10784);
    match answers::ask_with(form, cat, n, question, count, rows) {
        None => Asking::Yes,
        Some(class) => {
            *contents = concretization::class_contents(form, cat, n, class);
            Asking::No {
                class,
                registers: forms::registers(form),
            }
        }
    }
}

// Reads a question in this notation to an opened table; a refusal leaves the rows as they are.
// Stays: a match on the notation, which the calls pass on; a closure for the reader would be made at one place, and its contract would repeat that of both readers.
pub(crate) fn read_rows(
    form: &[u32],
    notation: Notation,
    question: &[u8],
    rows: &mut [u32; 96],
) -> Result<usize, Refusal>
    requires { Readable form.now }
    ensures { let a : Automaton = automaton_of form.now in
        (result ≡ reply_of (question_to notation a question.now))
        × (rows.new ≡ form_of (question_to notation a question.now) rows.old) }
{
    let registers = forms::registers(form) as u32;
    let constants = forms::constants(form) as u32;
    let locations = forms::locations(form) as u32;
    match notation {
        Notation::Rows => questions::read_question(registers, constants, locations, question, rows),
        Notation::Text => texts::read_text(registers, constants, locations, question, rows),
    }
}

// Whether a question in this notation holds at every permitted start of a table. Refusals write nothing.
pub(crate) fn ask_in(
    notation: Notation,
    table: &[u8],
    question: &[u8],
    rows: &mut [u32],
    contents: &mut [u32; 5],
) -> Result<Asking, Refusal>
    ensures { let before : AskBuffers = ask_buffers rows.old contents.old in
        let after : AskBuffers = ask_buffers rows.new contents.new in
        AskPromise notation table.now question.now result before after }
{
    if rows.len() < 10784 {
        return Err(Refusal::of_call(9));
    }
    let mut form = [0u32; forms::LENGTH];
    let mut labels = [0u8; 3370];
    opening::open_table(table, &mut form, &mut labels)?;
    let mut lines = [0u32; 96];
    let count = read_rows(&form, notation, question, &mut lines)?;
    Ok(answer(&form, &labels, &lines, count, rows, contents))
}

// The call on a question that is a file of rows.
pub fn ask(
    table: &[u8],
    question: &[u8],
    rows: &mut [u32],
    contents: &mut [u32; 5],
) -> Result<Asking, Refusal>
    ensures { let before : AskBuffers = ask_buffers rows.old contents.old in
        let after : AskBuffers = ask_buffers rows.new contents.new in
        AskPromise Rows table.now question.now result before after }
{
    ask_in(Notation::Rows, table, question, rows, contents)
}

// The call on a question that is a line of text.
pub fn ask_text(
    table: &[u8],
    text: &[u8],
    rows: &mut [u32],
    contents: &mut [u32; 5],
) -> Result<Asking, Refusal>
    ensures { let before : AskBuffers = ask_buffers rows.old contents.old in
        let after : AskBuffers = ask_buffers rows.new contents.new in
        AskPromise Text table.now text.now result before after }
{
    ask_in(Notation::Text, table, text, rows, contents)
}
