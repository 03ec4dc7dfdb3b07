// The run along a path of configurations: the contents and the moves, in the replayer's form and as printed lines.

ghost use Rattle.std.specs.Prelude.{◌≡◌, List, [], ◌∷◌, ◌++◌, ℕ, suc, ◌+◌, ◌*◌, ◌<◌, ◌≤◌, length, get_or, take, drop};
ghost use Rattle.std.proofs.Math.Option.{some};
ghost use Rattle.std.proofs.Math.Seq.{paste};
ghost use Rattle.classes.specs.Contents.{contents};
ghost use Rattle.automata.specs.Runs.{Move, after};
ghost use Rattle.automata.specs.Configurations.{classes};
ghost use Rattle.automata.specs.ConfigurationGraph.{numbered};
ghost use Rattle.moves.specs.Moves.{smallest};
ghost use Rattle.automata.specs.Automaton.{Automaton};
ghost use Rattle.forms.specs.FormAutomaton.{automaton_of};
ghost use Rattle.lists.specs.Arrays.{padded};
ghost use Rattle.forms.specs.ClassLabels.{Lent};
ghost use Rattle.replay.specs.RunForm.{flat_move, flat_run};
ghost use Rattle.concretization.specs.RunLines.{slotted, moment_line, run_lines};
ghost use Rattle.concretization.specs.PathRuns.{moves_put, lines_put, stand_of, state_of, Leaving, moves_from, Going, path_contents, path_moves, Pathed};

use crate::{Configurations, smallest_move};
use replay::{Stand, Step};

// A line of the printout: a moment, its transition, its location, the first r contents and the first p parameters.
fn line(
    moment: u32,
    arc: u32,
    place: u32,
    contents: [u32; 5],
    r: usize,
    params: [u32; 3],
    p: usize,
) -> [u32; 12]
    requires { (r ≤ 5) × (p ≤ 3) }
    ensures { result ≡ slotted (moment ∷ arc ∷ place ∷ (take r contents ++ take p params)) }
{
    let count = (3 + r + p) as u32;
    let mut slots = [count, moment, arc, place, 0, 0, 0, 0, 0, 0, 0, 0];
    lists::put(&mut slots, 4, &contents[..r]);
    lists::put(&mut slots, 4 + r, &params[..p]);
    slots
}

// A move in the replayer's form.
fn nine(m: Step) -> [u32; 9]
    ensures { result ≡ m.arc ∷ (m.params ++ m.next) }
{
    [
        m.arc,
        m.params[0],
        m.params[1],
        m.params[2],
        m.next[0],
        m.next[1],
        m.next[2],
        m.next[3],
        m.next[4],
    ]
}

// Move j of the run, from 0: the smallest from where it stands to the configuration. Returns where the run stands then.
fn write_step(
    nodes: &Configurations,
    node: usize,
    j: usize,
    here: Stand,
    run: &mut [u32],
    lines: &mut [u32],
) -> Stand
    requires { Leaving (automaton_of nodes.now.form.now) here node × (j < 10784) × (14 + 9 * j ≤ length run.old) × (24 + 12 * j ≤ length lines.old) }
    ensures { let a : Automaton = automaton_of nodes.now.form.now in
        ((m : Move) → smallest 15 a (state_of a here) (numbered a node) ≡ some m
        → (result ≡ stand_of (after a m))
        × (run.new ≡ paste run.old (5 + 9 * j) (flat_move m) 9)
        × (lines.new ≡ paste lines.old (12 + 12 * j) (moment_line a (suc j) m) 12)) }
{
    let form = nodes.form;
    let to = nodes.location(node);
    let labels = nodes.labels(node);
    let m = smallest_move(form, here, to, labels).unwrap();
    lists::put(run, 5 + 9 * j, &nine(m));
    let p = forms::arc_at(form, m.arc as usize - 1).params as usize;
    let r = forms::registers(form);
    let shown = line((j + 1) as u32, m.arc, to, m.next, r, m.params, p);
    lists::put(lines, 12 + 12 * j, &shown);
    let contents = m.next;
    Stand {
        place: to,
        contents,
    }
}

// The moves along the path, from where the run stands.
fn write_moves(
    nodes: &Configurations,
    path: &[u16],
    steps: usize,
    first: Stand,
    run: &mut [u32],
    lines: &mut [u32],
)
    requires { Going (automaton_of nodes.now.form.now) path.now steps 0 first × (steps < 10784) × (5 + 9 * steps ≤ length run.old) × (12 + 12 * steps ≤ length lines.old) }
    ensures { let a : Automaton = automaton_of nodes.now.form.now in
        let ms : List Move = moves_from a path.now steps 0 first in
        (run.new ≡ moves_put 0 ms run.old)
        × (lines.new ≡ lines_put a 0 ms lines.old) }
{
    let mut here = first;
    for j in 0..steps {
        let node = path[j + 1] as usize;
        here = write_step(nodes, node, j, here, run, lines);
    }
}

// The contents given back for class k; zeros after them.
pub fn class_contents(form: &[u32], cat: &[u8], n: usize, k: usize) -> [u32; 5]
    requires { Lent form.now cat.now n × (k < n) }
    ensures { result ≡ padded 5 (contents (automaton_of form.now).constants (get_or (classes (automaton_of form.now)) k [])) }
{
    let nodes = Configurations { form, cat, n };
    nodes.class_contents(k)
}

// The run along a path and its lines: from the contents given back for the class of its first configuration, each step by the smallest move.
pub fn write_run(
    form: &[u32],
    cat: &[u8],
    n: usize,
    path: &[u16],
    steps: usize,
    run: &mut [u32],
    lines: &mut [u32],
)
    requires { Lent form.now cat.now n × Pathed (automaton_of form.now) path.now steps × (steps < 10784) × (5 + 9 * steps ≤ length run.old) × (12 + 12 * steps ≤ length lines.old) }
    ensures { let a : Automaton = automaton_of form.now in
        let v : List ℕ = path_contents a path.now in
        let ms : List Move = path_moves a path.now steps in
        (run.new ≡ flat_run v ms ++ drop (5 + 9 * steps) run.old)
        × (lines.new ≡ run_lines a v ms ++ drop (12 * suc steps) lines.old) }
{
    let nodes = Configurations { form, cat, n };
    let contents = nodes.contents(path[0] as usize);
    lists::put(run, 0, &contents);
    let place = forms::start(form) as u32;
    let r = forms::registers(form);
    let shown = line(0, 0, place, contents, r, [0, 0, 0], 0);
    lists::put(lines, 0, &shown);
    let first = Stand { place, contents };
    write_moves(&nodes, path, steps, first, run, lines);
}
