// The reader of a question as a line of text: question, pair and atom call each other, going forward over the bytes, and write the rows, of which the first 32 are kept.
#![tactic(auto)]

ghost use Rattle.std.specs.Prelude.{◌≢◌, ◌≡◌, ◌+◌, ◌≤◌, ◌<◌, length, get_or, take};
ghost use Rattle.refusals.specs.Judged.{refusal, verdict};
ghost use Rattle.automata.specs.Questions.{row};
ghost use Rattle.forms.specs.QuestionForm.{rows_of};
ghost use Rattle.questions.specs.QuestionReply.{reply_of, form_of};
ghost use Rattle.texts.specs.Texts.{RightText, first_misfit, read_text};
ghost use Rattle.texts.specs.RowsPut.{put_first};
ghost use Rattle.texts.specs.Steps.{Step, step_of};
ghost use Rattle.texts.specs.Descent.{from, pair_from, equation_from, location_from, prefix_kind, prefixed_step, prefixed_rows, middle_kind, side_kind, kind_or_none, Right, RightNumber};

use forms::Question;
use questions::Counts;
use refusals::Refusal;

// A text with room for the longest. A reference to it is one address, where one to a slice is two numbers that every call writes to memory again.
const LENGTH: usize = 400;

type Text = [u8; LENGTH];

// Writes row n, counted from 0, if it is one of the first 32.
#[tactic(auto, unfolding(crate::specs::RowsPut::put_first))]
fn put_first(t: &mut Question, n: u32, k: u32, a: u32, b: u32)
    ensures { t.new ≡ put_first t.old n (row k a b) }
{
    if n < 32 {
        forms::put_question_row(t, n, k, a, b);
    }
}

// Read up to here, with this number: the rows up to there, or the value of a numeral.
// Stays: what a reader of a part returns is one number, for an enum in its place was slower on long texts.
fn read(at: u32, n: u32) -> u32
    requires { (at < 1024) × (0 < n) × (n ≤ 1000) }
    ensures { step_of result ≡ Step.read at n }
{
    at + 1024 * n
}

// Read up to here, with one row more.
fn closed(t: &mut Question, at: u32, rows: u32, k: u32, a: u32, b: u32) -> u32
    requires { (at < 1024) × (rows < 1000) }
    ensures { (t.new ≡ put_first t.old rows (row k a b)) × (step_of result ≡ Step.read at (rows + 1)) }
{
    put_first(t, rows, k, a, b);
    read(at, rows + 1)
}

// An operator before what was read up to here, with its row of kind k, or the same stop.
fn prefixed(t: &mut Question, q: u32, k: u32) -> u32
    requires { q < 1024000 }
    ensures { (step_of result ≡ prefixed_step (step_of q)) × (t.new ≡ prefixed_rows k t.old (step_of q)) }
{
    if q < 1024 {
        return q;
    }
    closed(t, q % 1024, q / 1024, k, q / 1024, 0)
}

// The byte at a position of a text of n bytes, 0 behind the end.
fn byte_at(s: &Text, n: u32, at: u32) -> u8
    requires { n ≤ 400 }
    ensures { result ≡ get_or (take n s.now) at 0 }
{
    if at < n { s[at as usize] } else { 0 }
}

// A number of one or two digits, the first not 0.
fn number(s: &Text, n: u32, at: u32) -> u32
    requires { (at ≤ length (take n s.now)) × (n ≤ 400) }
    ensures { RightNumber (take n s.now) at (step_of result) }
{
    let b = byte_at(s, n, at);
    if !(b'1'..=b'9').contains(&b) {
        return at;
    }
    let tens = u32::from(b - b'0');
    let next = at + 1;
    let c = byte_at(s, n, next);
    if !c.is_ascii_digit() {
        return read(next, tens);
    }
    read(next + 1, 10 * tens + u32::from(c - b'0'))
}

// The kind of the row for an operator of these two bytes before a question, if they are one.
#[tactic(auto, unfolding(crate::specs::Descent::prefix_kind, crate::specs::Descent::kind_or_none))]
fn prefix(b: u8, c: u8) -> Option<u32>
    ensures { result ≡ kind_or_none (prefix_kind b c) }
{
    match (b, c) {
        (b'E', b'X') => Some(6),
        (b'E', b'G') => Some(8),
        (b'E', b'F') => Some(12),
        (b'A', b'X') => Some(11),
        (b'A', b'G') => Some(13),
        (b'A', b'F') => Some(14),
        _ => None,
    }
}

// Stays: `until` chooses one of two tables of operators; `pair` passes it on, and two functions for it would repeat the rest.
// The kind of the row for what joins two questions, if the byte does.
#[tactic(auto, unfolding(crate::specs::Descent::middle_kind, crate::specs::Descent::kind_or_none))]
fn middle(b: u8, until: bool) -> Option<u32>
    ensures { result ≡ kind_or_none (middle_kind until b) }
{
    match (until, b) {
        (true, b'U') => Some(7),
        (false, b'&') => Some(5),
        (false, b'|') => Some(9),
        (false, b'>') => Some(10),
        _ => None,
    }
}

// The kind of the row for an equation with a register or a constant, if the byte names one.
#[tactic(auto, unfolding(crate::specs::Descent::side_kind, crate::specs::Descent::kind_or_none))]
fn side(b: u8) -> Option<u32>
    ensures { result ≡ kind_or_none (side_kind b) }
{
    match b {
        b'r' => Some(2),
        b'c' => Some(3),
        _ => None,
    }
}

// What follows the byte L.
fn location(s: &Text, n: u32, t: &mut Question, at: u32, rows: u32) -> u32
    requires { (at ≤ length (take n s.now)) × (n ≤ 400) × (rows < at) }
    ensures { Right (location_from (take n s.now) at) (take n s.now) at rows t.old (step_of result) t.new }
{
    let v = number(s, n, at);
    if v < 1024 {
        return v;
    }
    closed(t, v % 1024, rows, 1, v / 1024, 0)
}

// What follows the byte r.
fn equation(s: &Text, n: u32, t: &mut Question, at: u32, rows: u32) -> u32
    requires { (at ≤ length (take n s.now)) × (n ≤ 400) × (rows < at) }
    ensures { Right (equation_from (take n s.now) at) (take n s.now) at rows t.old (step_of result) t.new }
{
    let i = number(s, n, at);
    if i < 1024 {
        return i;
    }
    let p = i % 1024;
    if byte_at(s, n, p) != b'=' {
        return p;
    }
    let m = p + 1;
    let Some(k) = side(byte_at(s, n, m)) else {
        return m;
    };
    let j = number(s, n, m + 1);
    if j < 1024 {
        return j;
    }
    closed(t, j % 1024, rows, k, i / 1024, j / 1024)
}

// A question: two in brackets, or what begins otherwise.
#[cycle(atom_pair_question)]
fn question(s: &Text, n: u32, t: &mut Question, at: u32, rows: u32) -> u32
    requires { (at ≤ length (take n s.now)) × (n ≤ 400) × (rows ≤ at) }
    ensures { Right (from (take n s.now) at) (take n s.now) at rows t.old (step_of result) t.new }
{
    if byte_at(s, n, at) == b'(' {
        return pair(s, n, t, at + 1, rows, false);
    }
    atom(s, n, t, at, rows)
}

// A location, an equation, or an operator with what it stands before.
#[cycle(atom_pair_question)]
fn atom(s: &Text, n: u32, t: &mut Question, at: u32, rows: u32) -> u32
    requires { (at ≤ length (take n s.now)) × (n ≤ 400) × (rows ≤ at) × (get_or (take n s.now) at 0 ≢ 40) }
    ensures { Right (from (take n s.now) at) (take n s.now) at rows t.old (step_of result) t.new }
{
    let b = byte_at(s, n, at);
    let next = at + 1;
    // apart from the operators of two bytes, so that where the next question begins is not computed from this byte
    if b == b'!' {
        let q = question(s, n, t, next, rows);
        return prefixed(t, q, 4);
    }
    if b == b'L' {
        return location(s, n, t, next, rows);
    }
    if b == b'r' {
        return equation(s, n, t, next, rows);
    }
    let c = byte_at(s, n, next);
    let Some(k) = prefix(b, c) else {
        if b == b'E' {
            if c == b'(' {
                return pair(s, n, t, next + 1, rows, true);
            }
            return next;
        }
        if b == b'A' {
            return next;
        }
        return at;
    };
    let q = question(s, n, t, next + 1, rows);
    prefixed(t, q, k)
}

// Two questions with what joins them, up to the closing bracket.
#[cycle(atom_pair_question)]
fn pair(s: &Text, n: u32, t: &mut Question, at: u32, rows: u32, until: bool) -> u32
    requires { (at ≤ length (take n s.now)) × (n ≤ 400) × (rows < at) }
    ensures { Right (pair_from until (take n s.now) at) (take n s.now) at rows t.old (step_of result) t.new }
{
    let p = question(s, n, t, at, rows);
    if p < 1024 {
        return p;
    }
    let m = p % 1024;
    let Some(k) = middle(byte_at(s, n, m), until) else {
        return m;
    };
    let q = question(s, n, t, m + 1, p / 1024);
    if q < 1024 {
        return q;
    }
    let e = q % 1024;
    if byte_at(s, n, e) != b')' {
        return e;
    }
    closed(t, e + 1, q / 1024, k, p / 1024, q / 1024)
}

// A whole text of at most 400 bytes: how many rows it has, or else the byte, from 1, at which it is outside the grammar.
fn scan(s: &Text, n: u32, t: &mut Question) -> Result<u32, u32>
    requires { (n ≤ 400) × (n ≤ length s.now) }
    ensures { RightText (take n s.now) t.old result t.new }
{
    let q = question(s, n, t, 0, 0);
    if q < 1024 {
        return Err(q + 1);
    }
    let end = q % 1024;
    if end < n {
        return Err(end + 1);
    }
    Ok(q / 1024)
}

// Judges n rows: the number of the first that does not fit the table, from 1, is the error.
fn judge_rows(c: Counts, t: &[u32], n: u32) -> Result<(), u32>
    requires { (n ≤ 32) × (length t.now ≡ 96) }
    ensures { result ≡ verdict (first_misfit c 0 (rows_of t.now n)) }
{
    for i in 0..n {
        let j = 3 * (i as usize);
        if questions::judge_row(c, i, t[j], t[j + 1], t[j + 2]).is_err() {
            return Err(i + 1);
        }
    }
    Ok(())
}

// A refusal of the text.
fn refused(number: u32, line: u32) -> Refusal
    ensures { result ≡ refusal number 2 line }
{
    Refusal {
        number,
        file: 2,
        line,
    }
}

// Reads a question as a line of text, to a table with these counts, and returns how many rows it has; a refusal leaves the rows as they are.
pub fn read_text(
    registers: u32,
    constants: u32,
    locations: u32,
    s: &[u8],
    rows: &mut Question,
) -> Result<usize, Refusal>
    ensures { (result ≡ reply_of (read_text registers constants locations s.now))
        × (rows.new ≡ form_of (read_text registers constants locations s.now) rows.old) }
{
    if 400 < s.len() {
        return Err(refused(1, 0));
    }
    let c = Counts {
        registers,
        constants,
        locations,
    };
    let mut text = [0u8; LENGTH];
    text[..s.len()].copy_from_slice(s);
    let mut form = [0u32; forms::QUESTION_LENGTH];
    let n = match scan(&text, s.len() as u32, &mut form) {
        Ok(n) => n,
        Err(p) => return Err(refused(11, p)),
    };
    if 32 < n {
        return Err(refused(12, 0));
    }
    if let Err(i) = judge_rows(c, &form, n) {
        return Err(refused(5, i));
    }
    *rows = form;
    Ok(n as usize)
}
