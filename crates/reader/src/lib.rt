// The reader of tables and targets: the rules for their lines, and the loop over them.
#![tactic(auto)]

ghost use Rattle.std.specs.Prelude.{◌≡◌, true, ◌+◌, ◌≤◌, T, leb, length};
ghost use Rattle.std.specs.List.{list_all};
ghost use Rattle.columns.specs.Widths.{largest};
ghost use Rattle.graphs.specs.Lists.{all_of};
ghost use Rattle.automata.specs.WellFormed.{inside};
ghost use Rattle.refusals.specs.Judged.{refusal, verdict};
ghost use Rattle.fields.specs.LineRead.{judge_read};
ghost use Rattle.reader.specs.TableRules.{at, kind_of, has_term, kind_at, expected, fit_from, in_range, judge_values, judge_line, advance, further, placed, complete};
ghost use Rattle.reader.specs.Table.{Read, table_rules, blank_form, read_form, read_table, read_target};
ghost use Rattle.reader.specs.TableReply.{Filled};
ghost use Rattle.reader.specs.TableRead.{Small, small_weaken};

use columns::Sheet;
use fields::Rules;
use forms::Form;
use refusals::Refusal;

// How far a table is read, from nothing on. Locations are document 01's places, transitions its arcs.
#[derive(Clone, Copy, Default)]
pub struct Progress {
    // the counts of line 1
    pub registers: u32,
    pub constants: u32,
    pub locations: u32,
    pub actions: u32,
    pub transitions: u32,
    // the stage of the file
    pub stage: u32,
    // lines 2, 3 and 6 so far
    pub ids: u32,
    pub acts: u32,
    pub transition: u32,
    // the last transition, counted from 0
    pub place: u32,
    // conditions so far, of the start or of the last transition
    pub conds: u32,
    // parameters of the last transition's action
    pub params: u32,
    // the first number of the last line of a kind that rises
    pub newest: u32,
}

// The table has the term of kind k and number n here.
#[tactic(auto, unfolding(crate::specs::TableRules::has_term))]
fn has_term(p: Progress, k: u64, n: u64) -> bool
    ensures { result ≡ has_term p k n }
{
    let register = (k == 1) & fields::in_count(n, p.registers);
    let parameter = (k == 2) & fields::in_count(n, p.params);
    let constant = (k == 3) & fields::in_count(n, p.constants);
    register | parameter | constant
}

// What the table of kinds says of a line here, but for the ranges of its fields.
#[derive(Clone, Copy, Default)]
pub struct Kind {
    // how many fields it has
    pub fields: usize,
    // the stages at which it may stand, and the one that follows it
    pub from: u32,
    pub to: u32,
    pub next: u32,
    // its turn has come by the counts
    pub due: bool,
    // it is a condition
    pub condition: bool,
    // its first number rises
    pub rising: bool,
    // its row in the form
    pub row: usize,
}

// The kind k of a line with the first number n.
#[tactic(auto, using(crate::proofs::Bounds::other), unfolding(crate::specs::TableRules::kind_at))]
fn kind_at(p: Progress, k: u64, n: u32) -> Kind
    requires { Small p 50000 }
    ensures { result ≡ kind_at p k n }
{
    let conds = p.conds as usize;
    let place = forms::ROWS_EACH * (p.place as usize);
    match k {
        1 => Kind {
            fields: 6,
            next: 1,
            due: true,
            row: forms::COUNTS_ROW,
            ..Kind::default()
        },
        2 => Kind {
            fields: 2,
            from: 1,
            to: 2,
            next: 2,
            due: p.ids < p.constants,
            rising: true,
            row: forms::CONSTANT_ROWS + p.ids as usize,
            ..Kind::default()
        },
        3 => Kind {
            fields: 2,
            from: 1,
            to: 3,
            next: 3,
            due: (p.constants <= p.ids) & (p.acts < p.actions),
            row: forms::ACTION_ROWS + p.acts as usize,
            ..Kind::default()
        },
        4 => Kind {
            fields: 2,
            from: 3,
            to: 3,
            next: 4,
            due: p.actions <= p.acts,
            row: forms::START_ROW,
            ..Kind::default()
        },
        5 => Kind {
            fields: 6,
            from: 4,
            to: 4,
            next: 4,
            due: true,
            condition: true,
            row: forms::STARTING_ROWS + conds,
            ..Kind::default()
        },
        6 => Kind {
            fields: 4,
            from: 4,
            to: 6,
            next: 5,
            due: p.transition < p.transitions,
            row: forms::TRANSITION_ROWS + forms::ROWS_EACH * (p.transition as usize),
            ..Kind::default()
        },
        7 => Kind {
            fields: 6,
            from: 5,
            to: 5,
            next: 5,
            due: true,
            condition: true,
            row: forms::GUARD_ROWS + place + conds,
            ..Kind::default()
        },
        8 => Kind {
            fields: 4,
            from: 5,
            to: 6,
            next: 6,
            due: true,
            rising: true,
            row: forms::ASSIGNMENT_ROWS + place + n as usize - 1,
            ..Kind::default()
        },
        _ => Kind {
            fields: 1,
            ..Kind::default()
        },
    }
}

// A line of n fields may stand here.
fn may_stand(p: Progress, k: Kind, n: usize) -> bool
    ensures { result ≡ expected p k n }
{
    (n == k.fields) & (k.from <= p.stage) & (p.stage <= k.to) & k.due
}

// No number is larger than an identifier can be.
fn are_issued(f: [u64; 6]) -> bool
    ensures { result ≡ list_all (λ v. leb v largest) f }
{
    f.iter().all(|v| *v <= columns::LARGEST)
}

// The fields of a line of its kind are in their ranges.
#[tactic(auto, using(crate::proofs::Bounds::other))]
fn are_fit(p: Progress, f: [u64; 6]) -> bool
    ensures { result ≡ fit_from p true (kind_of (at f 0)).fields f 1 }
{
    let a = f[1];
    let b = f[2];
    let c = f[3];
    let d = f[4];
    let e = f[5];
    match f[0] {
        1 => (a <= 5) & (b <= 2) & fields::in_count(c, 16) & fields::in_count(d, 16) & (e <= 64),
        2 => true,
        3 => a <= 3,
        4 => fields::in_count(a, p.locations),
        5 => has_term(p, a, b) & fields::in_count(c, 2) & has_term(p, d, e),
        6 => fields::in_count(a, p.locations)
            & fields::in_count(b, p.actions)
            & fields::in_count(c, p.locations),
        7 => has_term(p, a, b) & fields::in_count(c, 2) & has_term(p, d, e),
        8 => fields::in_count(a, p.registers) & has_term(p, b, c),
        _ => true,
    }
}

// Every number is in its range.
fn has_range(p: Progress, f: [u64; 6]) -> bool
    ensures { result ≡ in_range p f }
{
    are_issued(f) & are_fit(p, f)
}

// Judges a line of kind k that may stand here: the number of its refusal is the error.
#[tactic(auto, unfolding(crate::specs::TableRules::judge_values))]
fn judge_values(p: Progress, k: Kind, f: [u64; 6]) -> Result<(), u32>
    ensures { result ≡ verdict (judge_values p k f) }
{
    if k.condition & (8 <= p.conds) {
        return Err(6);
    }
    if !has_range(p, f) {
        return Err(if f[0] == 1 { 3 } else { 5 });
    }
    if k.rising & (p.stage == k.next) & (f[1] <= u64::from(p.newest)) {
        return Err(4);
    }
    Ok(())
}

// Judges a line of n fields.
fn judge_fields(p: Progress, n: usize, f: [u64; 6]) -> Result<(), u32>
    requires { Small p 50000 }
    ensures { result ≡ verdict (judge_line p n f) }
{
    // the row is not asked for
    let k = kind_at(p, f[0], 0);
    if !may_stand(p, k, n) {
        return Err(2);
    }
    judge_values(p, k, f)
}

// The progress after a line of kind k that is accepted. The action of a line 6 has a parameters.
#[tactic(auto, unfolding(crate::specs::TableRules::advance))]
fn advanced(p: Progress, k: Kind, f: [u32; 6], a: u32) -> Progress
    requires { Small p 50000 }
    ensures { result ≡ advance p k f a }
{
    let next = Progress {
        stage: k.next,
        conds: if k.condition { p.conds + 1 } else { p.conds },
        newest: if k.rising { f[1] } else { p.newest },
        ..p
    };
    match f[0] {
        1 => Progress {
            registers: f[1],
            constants: f[2],
            locations: f[3],
            actions: f[4],
            transitions: f[5],
            ..next
        },
        2 => Progress {
            ids: p.ids + 1,
            ..next
        },
        3 => Progress {
            acts: p.acts + 1,
            ..next
        },
        6 => Progress {
            transition: p.transition + 1,
            place: p.transition,
            conds: 0,
            params: a,
            ..next
        },
        _ => next,
    }
}

// The numbers of a line that is accepted, in 32 bits.
fn row_of(f: [u64; 6]) -> [u32; 6]
    requires { T (all_of (λ v. leb v largest) f) }
    ensures { result ≡ f }
{
    let mut row = [0u32; 6];
    for i in 0..6 {
        row[i] = fields::narrow(f[i]);
    }
    row
}

impl Rules for Progress {
    ghost Read = { Read };

    ghost read = { λ p t. record { progress = p; form = t } };

    ghost rules = { λ _. table_rules };

    ghost Small = { Small };

    fn sheet(&self) -> Sheet {
        Sheet::Table
    }

    fn judge(&self, n: Option<usize>, f: [u64; 6]) -> Result<(), u32> {
        judge_fields(*self, n.ok_or(2u32)?, f)
    }

    // The numbers of the line go to its row.
    fn accept(&mut self, f: [u64; 6], t: &mut [u32]) {
        let f = row_of(f);
        let action = f[2] as usize;
        let params = forms::cell(t, forms::ARITY_ROWS + action, 1);
        let k = kind_at(*self, f[0] as u64, f[1]);
        forms::put_row(t, k.row, f);
        *self = advanced(*self, k, f, params);
    }

    #[tactic(auto, unfolding(crate::specs::TableRules::complete))]
    fn is_complete(&self) -> bool {
        (4 <= self.stage) & (self.transitions <= self.transition)
    }

    fn refusal_after(lines: u32, number: u32, file: u32) -> Refusal {
        Refusal {
            number,
            file,
            line: lines + 1,
        }
    }

    ghost weaken = { small_weaken };
}

// Reads the lines of a file to the form t, which has none.
fn read_file(p: Progress, file: u32, limit: usize, s: &[u8], t: &mut Form) -> Result<(), Refusal>
    requires { (limit ≤ 40000) × Small p 0 × (t.old ≡ blank_form) }
    ensures { Filled (read_form file limit p s.now) result t.new }
{
    let mut p = p;
    fields::read_file(&mut p, file, limit, s, t)
}

// Reads a table to the form t, which has no lines.
pub fn read_table(s: &[u8], t: &mut Form) -> Result<(), Refusal>
    requires { t.old ≡ blank_form }
    ensures { Filled (read_table s.now) result t.new }
{
    read_file(Progress::default(), 1, 40000, s, t)
}

// Reads a target of the table with the form `table` to the form t, which has no lines.
pub fn read_target(table: &[u32], s: &[u8], t: &mut Form) -> Result<(), Refusal>
    requires { t.old ≡ blank_form }
    ensures { Filled (read_target table.now s.now) result t.new }
{
    let p = Progress {
        registers: forms::cell(table, forms::COUNTS_ROW, forms::REGISTERS),
        constants: forms::cell(table, forms::COUNTS_ROW, forms::CONSTANTS),
        locations: forms::cell(table, forms::COUNTS_ROW, forms::LOCATIONS),
        stage: 3,
        ..Progress::default()
    };
    read_file(p, 2, 309, s, t)
}
