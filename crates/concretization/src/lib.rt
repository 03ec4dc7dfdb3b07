// Runs with real identifiers along a path of configurations: the smallest move from real contents to the next configuration (the smallest parameters that fit,
// then the smallest new contents), and with it the run along any path, in the replayer's form and as printed lines.
#![tactic(auto)]

pub mod along;
pub mod configurations;

ghost use Rattle.std.specs.Prelude.{◌≡◌, cond, true, ◌&&◌, [], ◌∷◌, ◌++◌, ℕ, suc, ◌+◌, ◌-◌, ◌<◌, ◌≤◌, eqb, leb, length, get_or, take};
ghost use Rattle.graphs.specs.Lists.{first, up_from};
ghost use Rattle.classes.specs.Contents.{fresh};
ghost use Rattle.moves.specs.Moves.{pool, smallest};
ghost use Rattle.automata.specs.Runs.{transition_of};
ghost use Rattle.forms.specs.FormAutomaton.{automaton_of};
ghost use Rattle.forms.specs.Readable.{Readable};
ghost use Rattle.lists.specs.Arrays.{padded};
ghost use Rattle.forms.specs.Slots.{Fits, values_from};
ghost use Rattle.labelling.specs.Noted.{labelled};
ghost use Rattle.concretization.specs.Parameters.{worth, tries, suits, found_of, slots_of, label_slots, sought, new_contents};
ghost use Rattle.concretization.specs.SmallestMove.{state_at, class_at, Posed, move_by, padded_move};

pub use along::{class_contents, write_run};
pub use configurations::Configurations;
use forms::Arc;
use labelling::{Labelled, Seen};
use replay::{Stand, Step};

// The values in the first n slots; zeros after them.
fn values_at(vals: [u32; 10], slots: [u8; 5], n: usize) -> [u32; 5]
    requires { (n ≤ 5) × ((i : ℕ) → get_or slots i 0 < 10) }
    ensures { result ≡ padded 5 (values_from vals slots 0 n) }
{
    let mut values = [0u32; 5];
    for i in 0..n {
        values[i] = vals[slots[i] as usize];
    }
    values
}

// The labels of the values in the first n slots, given the identifiers that have a label already.
fn scan(s: Seen, vals: [u32; 10], slots: [u8; 5], n: usize) -> Labelled
    requires { (length s ≤ 12) × (n ≤ 5) × ((i : ℕ) → get_or slots i 0 < 10) }
    ensures { result ≡ labelled s (values_from vals slots 0 n) }
{
    labelling::labels_of(s, values_at(vals, slots, n), n)
}

// One identifier more, if it is larger than 14.
fn push_large(s: &mut Seen, x: u32)
    requires { length s.old ≤ 16 }
    ensures { s.new ≡ cond (leb 15 x) (s.old ++ (x ∷ [])) s.old }
{
    if 15 <= x {
        s.push(x);
    }
}

// The identifiers to choose from: 0 to 14 and the larger constants.
fn choices(constants: [u32; 2], c: usize) -> Seen
    requires { c ≤ 2 }
    ensures { result ≡ pool 15 (take c constants) }
{
    let mut pool = Seen::new([0, 1, 2, 3, 4, 5, 6, 7, 8, 9, 10, 11, 12, 13, 14, 0, 0], 15);
    for x in &constants[..c] {
        push_large(&mut pool, *x);
    }
    pool
}

// Whether x is one of these, or the smallest other, which is f.
fn worth_trying(s: &Seen, f: u32, x: u32) -> bool
    requires { f ≡ fresh s.now }
    ensures { result ≡ worth s.now x }
{
    s.contains(x) || x == f
}

// These values, if with them the guard holds and the values written have the labels wanted.
fn judge(arc: Arc, base: Seen, wanted: [u8; 5], vals: [u32; 10]) -> Option<[u32; 10]>
    requires { Fits arc × (length base ≤ 2) }
    ensures { result ≡ found_of (first (suits arc base wanted) (vals ∷ [])) }
{
    if forms::holds(arc.guard, &vals) {
        let written = scan(base, vals, arc.source, arc.sets as usize);
        if labelling::same_entries(&written.labels, &wanted) {
            return Some(vals);
        }
    }
    None
}

// The first values that suit, of those tried for the parameters from depth on.
fn seek(
    arc: Arc,
    base: Seen,
    wanted: [u8; 5],
    pool: &[u32],
    depth: usize,
    seen: Seen,
    vals: [u32; 10],
) -> Option<[u32; 10]>
    requires { Fits arc × (length base ≤ 2) × (depth ≤ arc.params) × (length seen ≤ 12 + depth) }
    ensures { result ≡ found_of (first (suits arc base wanted) (tries pool.now (arc.params - depth) (7 + depth) seen vals)) }
{
    if depth == arc.params as usize {
        return judge(arc, base, wanted, vals);
    }
    let f = seen.smallest_other();
    for x in pool {
        if worth_trying(&seen, f, *x) {
            let mut w = vals;
            w[7 + depth] = *x;
            let mut more = seen;
            more.note(*x);
            if let Some(found) = seek(arc, base, wanted, pool, depth + 1, more, w) {
                return Some(found);
            }
        }
    }
    None
}

// Constants and contents in their slots.
fn slots(constants: [u32; 2], contents: [u32; 5]) -> [u32; 10]
    ensures { result ≡ slots_of constants contents }
{
    [
        constants[0],
        constants[1],
        contents[0],
        contents[1],
        contents[2],
        contents[3],
        contents[4],
        0,
        0,
        0,
    ]
}

// The labels of constants and of a class in their slots.
fn label_slots(labels: [u8; 5]) -> [u32; 10]
    ensures { result ≡ label_slots labels }
{
    slots([1, 2], labelling::wide_labels(labels))
}

// What a class holds in the registers that the transition assigns: its labels, and those noted then.
fn held(arc: Arc, c: usize, next: [u8; 5]) -> Labelled
    requires { Fits arc × (c ≤ 2) }
    ensures { result ≡ labelled (up_from 1 c) (values_from (label_slots next) arc.target 0 arc.sets) }
{
    let seen = labelling::constants_seen([1, 2], c);
    scan(seen, label_slots(next), arc.target, arc.sets as usize)
}

// The smallest parameters with which the transition leads from r contents to the next class, in their slots.
pub fn parameters(
    arc: Arc,
    constants: [u32; 2],
    c: usize,
    contents: [u32; 5],
    r: usize,
    next: [u8; 5],
) -> Option<[u32; 10]>
    requires { Fits arc × (c ≤ 2) × (r ≤ 5) }
    ensures { result ≡ found_of (sought arc (take c constants) (take r contents) (slots_of constants contents) next) }
{
    let base = labelling::constants_seen(constants, c);
    let vals = slots(constants, contents);
    let wanted = held(arc, c, next).labels;
    let seen = labelling::labels_of(base, contents, r).seen;
    let pool = choices(constants, c);
    seek(arc, base, wanted, pool.as_slice(), 0, seen, vals)
}

// The smallest new contents of the next class, with these values in slots.
pub fn renewed(
    arc: Arc,
    constants: [u32; 2],
    c: usize,
    vals: [u32; 10],
    r: usize,
    next: [u8; 5],
) -> [u32; 5]
    requires { Fits arc × (c ≤ 2) × (r ≤ 5) }
    ensures { result ≡ padded 5 (new_contents arc (take c constants) vals r next) }
{
    let seen = labelling::constants_seen(constants, c);
    let written = scan(seen, vals, arc.source, arc.sets as usize).seen;
    let marked = held(arc, c, next).seen;
    let labels = labelling::labels_of(marked, labelling::wide_labels(next), r).labels;
    labelling::identifiers_of(written, labels, r)
}

// Whether transition i, counted from 0, goes from one place to the other.
fn connects(form: &[u32], i: usize, from: u32, to: u32) -> bool
    requires { Readable form.now × (i < length (automaton_of form.now).transitions) }
    ensures { result ≡ eqb (transition_of (automaton_of form.now) (suc i)).from from && eqb (transition_of (automaton_of form.now) (suc i)).to to }
{
    forms::from(form, i) as u32 == from && forms::to(form, i) as u32 == to
}

// The smallest move by transition i, counted from 0, from where the run stands to the next class.
pub fn move_by(form: &[u32], i: usize, here: Stand, to: u32, next: [u8; 5]) -> Option<Step>
    requires { Posed form.now here.place here.contents to next × (i < length (automaton_of form.now).transitions) }
    ensures { result ≡ padded_move (move_by 15 (automaton_of form.now) (state_at (automaton_of form.now) here.place here.contents) (class_at (automaton_of form.now) to next) (suc i)) }
{
    if !connects(form, i, here.place, to) {
        return None;
    }
    let arc = forms::arc_at(form, i);
    let r = forms::registers(form);
    let c = forms::constants(form);
    let constants = forms::constant_values(form);
    let vals = parameters(arc, constants, c, here.contents, r, next)?;
    let fresh = renewed(arc, constants, c, vals, r, next);
    Some(Step {
        arc: i as u32 + 1,
        params: [vals[7], vals[8], vals[9]],
        next: fresh,
    })
}

// The smallest move from where the run stands to the next class, over all transitions.
pub fn smallest_move(form: &[u32], here: Stand, to: u32, next: [u8; 5]) -> Option<Step>
    requires { Posed form.now here.place here.contents to next }
    ensures { result ≡ padded_move (smallest 15 (automaton_of form.now) (state_at (automaton_of form.now) here.place here.contents) (class_at (automaton_of form.now) to next)) }
{
    for i in 0..forms::transitions(form) {
        if let Some(m) = move_by(form, i, here, to, next) {
            return Some(m);
        }
    }
    None
}
