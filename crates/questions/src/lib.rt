// The reader of questions: the rules for a row, and the loop over the lines.
#![tactic(auto)]

ghost use Rattle.std.specs.Prelude.{ℕ, ◌≡◌, ◌≤◌, cond, Option, Ok, Err};
ghost use Rattle.std.proofs.Common.{arith};
ghost use Rattle.automata.specs.Questions.{row};
ghost use Rattle.automata.specs.WellFormed.{inside};
ghost use Rattle.refusals.specs.Judged.{verdict};
ghost use Rattle.fields.specs.LineRead.{judge_read};
ghost use Rattle.forms.specs.QuestionForm.{put};
ghost use Rattle.forms.specs.Shapes.{use_of};
ghost use Rattle.questions.specs.QuestionRules.{judge_field, judge_row, row_in, judge_fields};
ghost use Rattle.questions.specs.Question.{Rows, question_rules, read_question};
ghost use Rattle.questions.specs.QuestionReply.{reply_of, form_of};

use columns::Sheet;
use fields::Rules;
use forms::{Question, Use};
use refusals::Refusal;

// How many registers, constants and locations the table has.
#[derive(Clone, Copy)]
pub struct Counts {
    pub registers: u32,
    pub constants: u32,
    pub locations: u32,
}

// Judges a number that counts from 1 up to most: else the error is this refusal.
fn judge_number(refusal: u32, most: u32, x: u64) -> Result<(), u32>
    ensures { result ≡ cond (inside most x) (Ok tt) (Err refusal) }
{
    if fields::in_count(x, most) {
        Ok(())
    } else {
        Err(refusal)
    }
}

// Judges a field with the number x, where n rows stand before: the number of its refusal is the error.
#[tactic(auto, unfolding(crate::specs::QuestionRules::judge_field))]
fn judge_field(c: Counts, n: u32, u: Use, x: u64) -> Result<(), u32>
    ensures { result ≡ verdict (judge_field c n (use_of u) x) }
{
    match u {
        Use::Location => judge_number(5, c.locations, x),
        Use::Register => judge_number(5, c.registers, x),
        Use::Constant => judge_number(5, c.constants, x),
        Use::Row => judge_number(8, n, x),
        Use::Unused if x == 0 => Ok(()),
        Use::Unused => Err(5),
    }
}

// Judges a row: its values from left to right.
fn judge_numbers(c: Counts, n: u32, k: u64, a: u64, b: u64) -> Result<(), u32>
    ensures { result ≡ verdict (judge_row c n (row k a b)) }
{
    if !fields::in_count(k, 14) {
        return Err(5);
    }
    let s = forms::shape_of(k as u32);
    judge_field(c, n, s.first, a)?;
    judge_field(c, n, s.second, b)
}

// The same, of a row in 32 bits.
pub fn judge_row(c: Counts, n: u32, k: u32, a: u32, b: u32) -> Result<(), u32>
    ensures { result ≡ verdict (judge_row c n (row k a b)) }
{
    judge_numbers(c, n, k as u64, a as u64, b as u64)
}

// Judges a line of so many fields.
#[tactic(auto, unfolding(crate::specs::QuestionRules::judge_fields))]
fn judge_fields(c: Counts, n: u32, count: usize, f: [u64; 6]) -> Result<(), u32>
    ensures { result ≡ verdict (judge_fields c n count f) }
{
    if count != 3 {
        return Err(2);
    }
    judge_numbers(c, n, f[0], f[1], f[2])
}

// How far a question is read: how many rows, to a table with these counts.
#[derive(Clone, Copy)]
struct Reading {
    counts: Counts,
    count: u32,
}

// The numbers of a line that is accepted are the next row.
fn put_row(q: Reading, f: [u64; 6], t: &mut [u32])
    requires small { q.count ≤ 50000 }
    requires judged { (n : Option ℕ) × (judge_read (judge_fields q.counts q.count) n f ≡ 0) }
    ensures { t.new ≡ put t.old q.count (row_in f) }
{
    let k = fields::narrow(f[0]);
    let a = fields::narrow(f[1]);
    let b = fields::narrow(f[2]);
    forms::put_question_row(t, q.count, k, a, b);
}

impl Rules for Reading {
    ghost Read = { Rows };

    ghost read = { λ q t. record { form = t; count = q.count } };

    ghost rules = { λ q. question_rules q.counts };

    ghost Small = { λ q n. q.count ≤ n };

    fn sheet(&self) -> Sheet {
        Sheet::Plain
    }

    fn judge(&self, n: Option<usize>, f: [u64; 6]) -> Result<(), u32> {
        judge_fields(self.counts, self.count, n.ok_or(2u32)?, f)
    }

    fn accept(&mut self, f: [u64; 6], t: &mut [u32]) {
        put_row(*self, f, t);
        self.count += 1;
    }

    fn is_complete(&self) -> bool {
        0 < self.count
    }

    fn refusal_after(lines: u32, number: u32, file: u32) -> Refusal {
        Refusal {
            number,
            file,
            line: lines + 1,
        }
    }

    ghost weaken = { λ q n m h s. omega arith };
}

// Reads a question to a table with these counts, and returns how many rows it has; a refusal leaves the rows as they are.
// Stays: docs/TRACE names this call and its definition `read_question`, of these three counts.
pub fn read_question(
    registers: u32,
    constants: u32,
    locations: u32,
    s: &[u8],
    rows: &mut Question,
) -> Result<usize, Refusal>
    ensures { (result ≡ reply_of (read_question registers constants locations s.now))
        × (rows.new ≡ form_of (read_question registers constants locations s.now) rows.old) }
{
    let mut reading = Reading {
        counts: Counts {
            registers,
            constants,
            locations,
        },
        count: 0,
    };
    let mut form = [0u32; forms::QUESTION_LENGTH];
    fields::read_file(&mut reading, 2, 608, s, &mut form)?;
    *rows = form;
    Ok(reading.count as usize)
}
