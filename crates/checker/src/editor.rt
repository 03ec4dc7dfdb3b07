// The functions for an editor written in C: bytes and lengths in, one number out, over memory of the checker's own.
ghost use Rattle.std.specs.Prelude.{Ok, ◌≡◌, ◌<◌, ◌≤◌, ◌^◌, T, length};
ghost use Rattle.automata.specs.Automaton.{Automaton};
ghost use Rattle.automata.specs.Configurations.{classes};
ghost use Rattle.automata.specs.Questions.{question as asked};
ghost use Rattle.automata.specs.Answers.{failing};
ghost use Rattle.automata.specs.WellFormed.{fits_question};
ghost use Rattle.forms.specs.FormAutomaton.{automaton_of};
ghost use Rattle.forms.specs.ClassLabels.{Lent};
ghost use Rattle.forms.specs.QuestionForm.{rows_of};
ghost use Rattle.claims.specs.Files.{target_files, question_files};
ghost use Rattle.claims.specs.ReachReply.{reach_reply};
ghost use Rattle.claims.specs.AskReply.{asked_reply, ask_reply};
ghost use Rattle.claims.specs.Editor.{reach_code, ask_code, ReachCodeMeans, AskCodeMeans};
ghost use Rattle.claims.specs.declared.Notation.TheVariants.{Rows, Text};
ghost use Rattle.checker.specs.Codes.{code};

use crate::given::classes_in;
use crate::question::read_rows;
use claims::Notation;
use refusals::Refusal;

// The number of an answer.
fn code(answer: Result<bool, Refusal>) -> u32
    requires { code answer < 2 ^ 32 }
    ensures { result ≡ code answer }
{
    match answer {
        Ok(yes) => u32::from(yes),
        Err(r) => 100 + r.number,
    }
}

// Whether runs of the table reach the target: the verdict alone, without a run.
fn reaches(table: &[u8], target: &[u8]) -> Result<bool, Refusal>
    ensures { code result ≡ reach_code (reach_reply (target_files table.now target.now)) }
{
    let mut form = [0u32; forms::LENGTH];
    let mut labels = [0u8; 3370];
    opening::open_table(table, &mut form, &mut labels)?;
    let mut goal = [0u32; forms::LENGTH];
    reader::read_target(&form, target, &mut goal)?;
    Ok(witness::reaches(&form, &goal, &labels, classes_in(&form)))
}

// Whether a question holds at every permitted start of an opened table.
fn decides(form: &[u32], cat: &[u8], question: &[u32], count: usize) -> bool
    requires { let a : Automaton = automaton_of form.now in
        Lent form.now cat.now (length (classes a)) × (length question.now ≡ 96) × (count ≤ 32) × T (fits_question a (rows_of question.now count)) }
    ensures { let a : Automaton = automaton_of form.now in
        code (Ok result) ≡ ask_code (asked_reply a (failing a (asked (rows_of question.now count)))) }
{
    answers::decide(form, cat, classes_in(form), question, count).is_none()
}

// Whether the question in this notation holds at every permitted start: the verdict alone.
fn holds(notation: Notation, table: &[u8], question: &[u8]) -> Result<bool, Refusal>
    ensures { code result ≡ ask_code (ask_reply (question_files notation table.now question.now)) }
{
    let mut form = [0u32; forms::LENGTH];
    let mut labels = [0u8; 3370];
    opening::open_table(table, &mut form, &mut labels)?;
    let mut lines = [0u32; 96];
    let count = read_rows(&form, notation, question, &mut lines)?;
    Ok(decides(&form, &labels, &lines, count))
}

// Table and target: 1 reached, 0 never, or 100 plus the refusal's number.
pub fn maceplateau_reach(table: &[u8], target: &[u8]) -> u32
    ensures { (result ≡ reach_code (reach_reply (target_files table.now target.now)))
        × ReachCodeMeans table.now target.now result }
{
    code(reaches(table, target))
}

// Table and question, a file of rows: 1 yes, 0 no, or 100 plus the refusal's number.
pub fn maceplateau_ask(table: &[u8], question: &[u8]) -> u32
    ensures { (result ≡ ask_code (ask_reply (question_files Rows table.now question.now)))
        × AskCodeMeans Rows table.now question.now result }
{
    code(holds(Notation::Rows, table, question))
}

// The same for a question that is a line of text.
pub fn maceplateau_ask_text(table: &[u8], text: &[u8]) -> u32
    ensures { (result ≡ ask_code (ask_reply (question_files Text table.now text.now)))
        × AskCodeMeans Text table.now text.now result }
{
    code(holds(Notation::Text, table, text))
}
