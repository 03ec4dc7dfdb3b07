// The form of a read table or question: what stands in it, by small functions that speak of its automaton; its transitions and conditions as small structs over
// slots, and the test whether conditions hold.
// Slots 0 and 1 are the constants, 2 to 6 the registers, 7 to 9 the parameters. The same code serves identifiers and class labels.
#![tactic(auto)]

mod rows;

ghost use Rattle.std.specs.Prelude.{◌≡◌, ◌+◌, ◌*◌, ◌<◌, ◌≤◌, T, eqb, length, get_or, take};
ghost use Rattle.graphs.specs.Lists.{all_of};
ghost use Rattle.automata.specs.Automaton.{arity};
ghost use Rattle.automata.specs.WellFormed.{constant_count, fits_condition, fits_assignment};
ghost use Rattle.automata.specs.Runs.{nowhere};
ghost use Rattle.forms.specs.TableForm.{row_count, form_length, arity_row, cell, transition_row};
ghost use Rattle.forms.specs.FormAutomaton.{term_of, automaton_of, target_of};
ghost use Rattle.forms.specs.Readable.{Readable};
ghost use Rattle.forms.specs.ClassLabels.{values_at};
ghost use Rattle.forms.specs.Shapes.{shape_of};
ghost use Rattle.forms.specs.Slots.{slot_of, flag, guard_of, conditions_from, ConditionFits, FitsGuard, guard_with, holds_at, holds_all, sets_of, assignments_from, AssignmentFits, sets_with, arc_of};

use crate::Operand::*;
use crate::Operation::*;
use crate::Rule::*;
use crate::Use::*;
pub use rows::{cell, put_question_row, put_row};

// A table's flat form: how many numbers it has, and in which rows of six its lines stand, as TableForm says.
const ROWS: usize = 924;

pub const LENGTH: usize = 6 * ROWS;

pub type Form = [u32; LENGTH];

pub const COUNTS_ROW: usize = 0;

pub const CONSTANT_ROWS: usize = 1;

pub const ACTION_ROWS: usize = 3;

pub const START_ROW: usize = 19;

pub const STARTING_ROWS: usize = 20;

pub const TRANSITION_ROWS: usize = 28;

pub const GUARD_ROWS: usize = 29;

pub const ASSIGNMENT_ROWS: usize = 37;

pub const ROWS_EACH: usize = 14;
// The row before that of the first action's line 3, and the columns of the counts of line 1.
pub const ARITY_ROWS: usize = 2;

pub const REGISTERS: usize = 1;

pub const CONSTANTS: usize = 2;

pub const LOCATIONS: usize = 3;

const TRANSITIONS: usize = 5;
// Where the constants and the start location stand.
const FIRST_CONSTANT: usize = 6 * CONSTANT_ROWS + 1;

const SECOND_CONSTANT: usize = 6 * (CONSTANT_ROWS + 1) + 1;

const START: usize = 6 * START_ROW + 1;

// A question's flat form, as QuestionForm says.
pub const QUESTION_LENGTH: usize = 96;

pub type Question = [u32; QUESTION_LENGTH];

// How many registers, constants, locations and transitions the table has.
pub fn registers(form: &[u32]) -> usize
    requires { Readable form.now }
    ensures { (result ≡ (automaton_of form.now).registers) × (result ≤ 5) }
{
    form[REGISTERS] as usize
}

pub fn constants(form: &[u32]) -> usize
    requires { Readable form.now }
    ensures { (result ≡ constant_count (automaton_of form.now)) × (result ≤ 2) }
{
    form[CONSTANTS] as usize
}

pub fn locations(form: &[u32]) -> usize
    requires { Readable form.now }
    ensures { (result ≡ (automaton_of form.now).locations) × (1 ≤ result) × (result ≤ 16) }
{
    form[LOCATIONS] as usize
}

pub fn transitions(form: &[u32]) -> usize
    requires { Readable form.now }
    ensures { (result ≡ length (automaton_of form.now).transitions) × (result ≤ 64) }
{
    form[TRANSITIONS] as usize
}

// The constants, in an array of two.
pub fn constant_values(form: &[u32]) -> [u32; 2]
    requires { Readable form.now }
    ensures { take (constant_count (automaton_of form.now)) result ≡ (automaton_of form.now).constants }
{
    [form[FIRST_CONSTANT], form[SECOND_CONSTANT]]
}

// The location of a target, or of a table's start: a table's form is that of a target too.
#[tactic(auto, unfolding(crate::specs::FormAutomaton::target_of))]
pub fn target_location(form: &[u32]) -> usize
    requires { length form.now ≡ form_length }
    ensures { result ≡ (target_of form.now).location }
{
    form[START] as usize
}

// Stays: the same number as a target's location, here of a table that can be read, so that its range is promised.
pub fn start(form: &[u32]) -> usize
    requires { Readable form.now }
    ensures { (result ≡ (automaton_of form.now).start) × (1 ≤ result) × (result ≤ 16) }
{
    form[START] as usize
}

// The number in this column of the line 6 of transition i, counted from 0.
fn field(form: &[u32], i: usize, column: usize) -> usize
    requires { (length form.now ≡ form_length) × (i < 64) × (column < 6) }
    ensures { result ≡ cell form.now (transition_row i) column }
{
    form[6 * (TRANSITION_ROWS + ROWS_EACH * i) + column] as usize
}

// The location that transition i, counted from 0, leaves, and the one that it enters.
pub fn from(form: &[u32], i: usize) -> usize
    requires { Readable form.now × (i < length (automaton_of form.now).transitions) }
    ensures { (result ≡ (get_or (automaton_of form.now).transitions i nowhere).from) × (1 ≤ result) × (result ≤ 16) }
{
    field(form, i, 1)
}

pub fn to(form: &[u32], i: usize) -> usize
    requires { Readable form.now × (i < length (automaton_of form.now).transitions) }
    ensures { (result ≡ (get_or (automaton_of form.now).transitions i nowhere).to) × (1 ≤ result) × (result ≤ 16) }
{
    field(form, i, 3)
}

// The arity of an action, counted from 1.
fn action_arity(form: &[u32], action: usize) -> usize
    requires { (length form.now ≡ form_length) × (action ≤ 16) }
    ensures { result ≡ cell form.now (arity_row action) 1 }
{
    form[6 * (ARITY_ROWS + action) + 1] as usize
}

// How many parameters transition i takes.
pub fn parameters(form: &[u32], i: usize) -> usize
    requires { Readable form.now × (i < length (automaton_of form.now).transitions) }
    ensures { (result ≡ arity (automaton_of form.now) (get_or (automaton_of form.now).transitions i nowhere)) × (result ≤ 3) }
{
    let action = field(form, i, 2);
    action_arity(form, action)
}

// Conditions: condition i says that the values in slots left[i] and right[i] are equal (equal[i] is 1) or different.
#[derive(Clone, Copy)]
pub struct Guard {
    pub count: u8,
    pub left: [u8; 8],
    pub equal: [u8; 8],
    pub right: [u8; 8],
}

// Assignments: assignment i writes the value in slot source[i] to the register of slot target[i].
#[derive(Clone, Copy)]
pub struct Sets {
    pub count: u8,
    pub source: [u8; 5],
    pub target: [u8; 5],
}

// A transition, with its number of parameters.
#[derive(Clone, Copy)]
pub struct Arc {
    pub from: u8,
    pub action: u8,
    pub to: u8,
    pub params: u8,
    pub guard: Guard,
    pub sets: u8,
    pub source: [u8; 5],
    pub target: [u8; 5],
}

// The slot of a term.
fn slot(kind: u32, number: u32) -> u8
    requires { (1 ≤ number) × (number ≤ 5) }
    ensures { result ≡ slot_of (term_of kind number) }
{
    let n = number as u8;
    match kind {
        1 => n + 1,
        2 => n + 6,
        _ => n - 1,
    }
}

// The number of the relation: 1 for equal, 0 for different.
fn sign(relation: u32) -> u8
    ensures { result ≡ flag (eqb relation 1) }
{
    u8::from(relation == 1)
}

// The guard with the condition of this row, if it holds one.
fn with_condition(mut g: Guard, form: &[u32], row: usize) -> Guard
    requires { (row < row_count) × (length form.now ≡ form_length) × (g.count < 8) × ConditionFits form.now row }
    ensures { result ≡ guard_with g form.now row }
{
    let at = 6 * row;
    if form[at] == 0 {
        return g;
    }
    let n = g.count as usize;
    g.left[n] = slot(form[at + 1], form[at + 2]);
    g.equal[n] = sign(form[at + 3]);
    g.right[n] = slot(form[at + 4], form[at + 5]);
    g.count += 1;
    g
}

// The conditions in the eight rows from this one on.
pub fn guard_at(form: &[u32], row: usize) -> Guard
    requires { (length form.now ≡ form_length) × (row + 8 ≤ row_count) × T (all_of (fits_condition 2 5 3) (conditions_from form.now row)) }
    ensures { result ≡ guard_of (conditions_from form.now row) }
{
    let mut g = Guard {
        count: 0,
        left: [0; 8],
        equal: [0; 8],
        right: [0; 8],
    };
    for i in 0..8 {
        g = with_condition(g, form, row + i);
    }
    g
}

// The conditions of a target, or of a table's start.
pub fn target_guard(form: &[u32]) -> Guard
    requires { (length form.now ≡ form_length) × T (all_of (fits_condition 2 5 3) (target_of form.now).conditions) }
    ensures { (result ≡ guard_of (target_of form.now).conditions) × FitsGuard result }
{
    guard_at(form, STARTING_ROWS)
}

// The assignments with that of this row, if it holds one.
fn with_set(mut s: Sets, form: &[u32], row: usize) -> Sets
    requires { (row < row_count) × (length form.now ≡ form_length) × (s.count < 5) × AssignmentFits form.now row }
    ensures { result ≡ sets_with s form.now row }
{
    let at = 6 * row;
    if form[at] == 0 {
        return s;
    }
    let n = s.count as usize;
    s.source[n] = slot(form[at + 2], form[at + 3]);
    s.target[n] = form[at + 1] as u8 + 1;
    s.count += 1;
    s
}

// The assignments in the five rows from this one on.
fn sets_at(form: &[u32], row: usize) -> Sets
    requires { (length form.now ≡ form_length) × (row + 5 ≤ row_count) × T (all_of (fits_assignment 2 5 3) (assignments_from form.now row)) }
    ensures { result ≡ sets_of (assignments_from form.now row) }
{
    let mut s = Sets {
        count: 0,
        source: [0; 5],
        target: [0; 5],
    };
    for i in 0..5 {
        s = with_set(s, form, row + i);
    }
    s
}

// Transition i, counted from 0.
pub fn arc_at(form: &[u32], i: usize) -> Arc
    requires { Readable form.now × (i < length (automaton_of form.now).transitions) }
    ensures { result ≡ arc_of (automaton_of form.now) (get_or (automaton_of form.now).transitions i nowhere) }
{
    let from = field(form, i, 1);
    let action = field(form, i, 2);
    let to = field(form, i, 3);
    let params = parameters(form, i);
    let guard = guard_at(form, GUARD_ROWS + ROWS_EACH * i);
    let s = sets_at(form, ASSIGNMENT_ROWS + ROWS_EACH * i);
    // Stays: a literal takes an array from a variable, not from a field.
    let source = s.source;
    let target = s.target;
    Arc {
        from: from as u8,
        action: action as u8,
        to: to as u8,
        params: params as u8,
        guard,
        sets: s.count,
        source,
        target,
    }
}

// The values of class k in slots, from the flat list of class labels.
pub fn class_values(cat: &[u8], k: usize) -> [u32; 10]
    requires { (k < 10000) × (5 * k + 5 ≤ length cat.now) }
    ensures { result ≡ values_at cat.now k }
{
    let i = 5 * k;
    [
        1,
        2,
        cat[i] as u32,
        cat[i + 1] as u32,
        cat[i + 2] as u32,
        cat[i + 3] as u32,
        cat[i + 4] as u32,
        0,
        0,
        0,
    ]
}

fn condition_holds(vals: &[u32; 10], l: u8, e: u8, r: u8) -> bool
    requires { (l < 10) × (r < 10) }
    ensures { result ≡ holds_at vals.now l e r }
{
    let equal = vals[l as usize] == vals[r as usize];
    if e == 1 { equal } else { !equal }
}

// Whether all conditions hold of the values.
pub fn holds(g: Guard, vals: &[u32; 10]) -> bool
    requires { FitsGuard g }
    ensures { result ≡ holds_all g vals.now }
{
    for i in 0..g.count as usize {
        if !condition_holds(vals, g.left[i], g.equal[i], g.right[i]) {
            return false;
        }
    }
    true
}

// What a field of a row names. A location is document 01's place.
#[derive(Clone, Copy)]
pub enum Use {
    Location,
    Register,
    Constant,
    Row,
    Unused,
}

// What an operation takes: true, or the row that the first or the second field names, as it is or negated.
#[derive(Clone, Copy)]
pub enum Operand {
    True,
    First,
    Second,
    NotFirst,
    NotSecond,
}

// The seven operations: the location, two registers equal, a register equal to a constant; and, EX, E U and EG.
#[derive(Clone, Copy)]
pub enum Operation {
    At,
    Equal,
    Is,
    And(Operand, Operand),
    Ex(Operand),
    Until(Operand, Operand),
    Globally(Operand),
}

// The rule that gives the set of a row: an operation, as it is or negated.
#[derive(Clone, Copy)]
pub enum Rule {
    Plain(Operation),
    Not(Operation),
}

// A kind of row: what its fields name, and its rule.
#[derive(Clone, Copy)]
pub struct Shape {
    pub first: Use,
    pub second: Use,
    pub rule: Rule,
}

// The shape of a kind, by the one match over the kinds. Not a is not (a and a), kinds 9 to 14 are source 001's abbreviations, and a number that is no kind
// names nothing and is true.
pub fn shape_of(kind: u32) -> Shape
    ensures { result ≡ shape_of kind }
{
    let (first, second, rule) = match kind {
        1 => (Location, Unused, Plain(At)),
        2 => (Register, Register, Plain(Equal)),
        3 => (Register, Constant, Plain(Is)),
        4 => (Row, Unused, Not(And(First, First))),
        5 => (Row, Row, Plain(And(First, Second))),
        6 => (Row, Unused, Plain(Ex(First))),
        7 => (Row, Row, Plain(Until(First, Second))),
        8 => (Row, Unused, Plain(Globally(First))),
        9 => (Row, Row, Not(And(NotFirst, NotSecond))),
        10 => (Row, Row, Not(And(First, NotSecond))),
        11 => (Row, Unused, Not(Ex(NotFirst))),
        12 => (Row, Unused, Plain(Until(True, First))),
        13 => (Row, Unused, Not(Until(True, NotFirst))),
        14 => (Row, Unused, Not(Globally(NotFirst))),
        _ => (Unused, Unused, Plain(And(True, True))),
    };
    Shape {
        first,
        second,
        rule,
    }
}
