// Judges a run: good, or the first bad moment, 0 for the start.
#![tactic(auto)]

ghost use Rattle.std.specs.Prelude.{◌≡◌, ◌&&◌, ℕ, ◌≤◌, ◌<◌, eqb, length, get_or, take};
ghost use Rattle.forms.specs.FormAutomaton.{automaton_of};
ghost use Rattle.forms.specs.Readable.{Readable};
ghost use Rattle.forms.specs.Slots.{Fits};
ghost use Rattle.replay.specs.Judge.{judge, judge_flat};
ghost use Rattle.replay.specs.RunForm.{rest_zero, Whole, step_from};
ghost use Rattle.replay.specs.Progress.{begun, advanced, judged, slot_values, assigned_slots, made_by};

use forms::Arc;

// A step of a run: a transition's number (document 01's arc), its parameters, the new contents; unused slots are 0.
#[derive(Clone, Copy)]
pub struct Step {
    pub arc: u32,
    pub params: [u32; 3],
    pub next: [u32; 5],
}

// Stays: a reply of the checker is a Result of this or a refusal, and one Result in another would be no plainer.
#[derive(Clone, Copy)]
pub enum Verdict {
    Good,
    Bad(usize),
}

// Where a good run stands: a location and the contents.
#[derive(Clone, Copy)]
pub struct Stand {
    pub place: u32,
    pub contents: [u32; 5],
}

// Where a run that is bad stood last, and the first bad moment.
#[derive(Clone, Copy)]
pub struct Stop {
    pub stand: Stand,
    pub moment: usize,
}

// How far the replay is: where the run stands, or, once it is bad, where it stopped.
pub type Progress = Result<Stand, Stop>;

// The values of constants, registers and parameters, in their slots.
fn slot_values(constants: [u32; 2], contents: [u32; 5], params: [u32; 3]) -> [u32; 10]
    ensures { result ≡ slot_values constants contents params }
{
    [
        constants[0],
        constants[1],
        contents[0],
        contents[1],
        contents[2],
        contents[3],
        contents[4],
        params[0],
        params[1],
        params[2],
    ]
}

// Whether the slots behind the first n, which are in use, are 0.
fn rest_zero(xs: &[u32], n: usize) -> bool
    ensures { result ≡ rest_zero n xs.now }
{
    xs.iter().skip(n).all(|x| *x == 0)
}

// Whether the new values hold in the first n target slots what the old ones have in the source slots.
fn assigned_slots(
    old: &[u32; 10],
    new: &[u32; 10],
    n: usize,
    source: [u8; 5],
    target: [u8; 5],
) -> bool
    requires { (n ≤ 5) × ((i : ℕ) → get_or source i 0 < 10) × ((i : ℕ) → get_or target i 0 < 10) }
    ensures { result ≡ assigned_slots old.now new.now n source target }
{
    for i in 0..n {
        if new[usize::from(target[i])] != old[usize::from(source[i])] {
            return false;
        }
    }
    true
}

// Whether the unused slots of a step are 0.
fn tidy(s: Step, params: usize, registers: usize) -> bool
    ensures { result ≡ (rest_zero params s.params && rest_zero registers s.next) }
{
    rest_zero(&s.params, params) & rest_zero(&s.next, registers)
}

// Whether the transition makes the step from here, and the unused slots are 0.
fn made(constants: [u32; 2], registers: usize, x: Arc, here: Stand, s: Step) -> bool
    requires { Fits x }
    ensures { result ≡ made_by constants registers x here.place here.contents s }
{
    let old = slot_values(constants, here.contents, s.params);
    let new = slot_values(constants, s.next, s.params);
    let leaves = u32::from(x.from) == here.place;
    let met = forms::holds(x.guard, &old);
    let moved = assigned_slots(&old, &new, usize::from(x.sets), x.source, x.target);
    leaves & met & moved & tidy(s, usize::from(x.params), registers)
}

// The replay at its start, which is moment 0.
pub fn started(form: &[u32], start: [u32; 5]) -> Progress
    requires { Readable form.now }
    ensures { result ≡ begun (automaton_of form.now) start }
{
    let vals = slot_values(forms::constant_values(form), start, [0, 0, 0]);
    let met = forms::holds(forms::target_guard(form), &vals);
    let stand = Stand {
        place: forms::start(form) as u32,
        contents: start,
    };
    if met & rest_zero(&start, forms::registers(form)) {
        Ok(stand)
    } else {
        Err(Stop { stand, moment: 0 })
    }
}

// The replay after one step more, which is this moment. What is bad stays as it is.
pub fn advance(form: &[u32], p: Progress, moment: usize, s: Step) -> Progress
    requires { Readable form.now }
    ensures { result ≡ advanced (automaton_of form.now) p moment s }
{
    let here = p?;
    let arc = s.arc as usize;
    if arc == 0 || forms::transitions(form) < arc {
        return Err(Stop {
            stand: here,
            moment,
        });
    }
    let x = forms::arc_at(form, arc - 1);
    let constants = forms::constant_values(form);
    if made(constants, forms::registers(form), x, here, s) {
        let contents = s.next;
        Ok(Stand {
            place: u32::from(x.to),
            contents,
        })
    } else {
        Err(Stop {
            stand: here,
            moment,
        })
    }
}

pub fn verdict_of(p: Progress) -> Verdict
    ensures { result ≡ judged p }
{
    match p {
        Ok(_) => Verdict::Good,
        Err(stop) => Verdict::Bad(stop.moment),
    }
}

// The five start contents.
fn start_of(run: &[u32]) -> [u32; 5]
    requires { 5 ≤ length run.now }
    ensures { result ≡ take 5 run.now }
{
    [run[0], run[1], run[2], run[3], run[4]]
}

// The step in the first nine numbers.
fn step_of(run: &[u32]) -> Step
    requires { 9 ≤ length run.now }
    ensures { result ≡ step_from run.now }
{
    Step {
        arc: run[0],
        params: [run[1], run[2], run[3]],
        next: [run[4], run[5], run[6], run[7], run[8]],
    }
}

// Judges a run in the flat form: five start contents, then nine numbers for each step.
pub fn replay(form: &[u32], run: &[u32]) -> Verdict
    requires { Readable form.now × Whole run.now }
    ensures { result ≡ judge_flat (automaton_of form.now) run.now }
{
    let mut p = started(form, start_of(run));
    for (i, step) in run[5..].chunks_exact(9).enumerate() {
        p = advance(form, p, i + 1, step_of(step));
    }
    verdict_of(p)
}

// Judges a run that is lent as steps: each is taken out and handed on by value.
// Stays: one loop for both forms would be generic over an iterator of steps, whose contract is longer than the loop.
pub fn replay_steps(form: &[u32], start: [u32; 5], run: &[Step]) -> Verdict
    requires { Readable form.now }
    ensures { result ≡ judge (automaton_of form.now) start run.now }
{
    let mut p = started(form, start);
    for (i, s) in run.iter().enumerate() {
        p = advance(form, p, i + 1, *s);
    }
    verdict_of(p)
}

// The same of the first n of an array of steps by value: whoever calls it holds no reference to a step.
pub fn replay_few(form: &[u32], start: [u32; 5], run: [Step; 4], n: usize) -> Verdict
    requires { Readable form.now × (n ≤ 4) }
    ensures { result ≡ judge (automaton_of form.now) start (take n run) }
{
    replay_steps(form, start, &run[..n])
}
