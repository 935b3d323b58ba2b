// Inner, for the reduction: a run of leaf steps at one cell, taken together. See specs/Runs.
//
// While leaves of u go one after the other, in the order in which reduce takes them, the pairs at u have lost together
// the points of the last leaf's pair as it was at the start. So the graph stays as it is during a run, and every pair
// at u loses that much once, at its end.
#![tactic(auto)]

mod places;

ghost use Rattle.std.specs.Prelude.{◌≡◌, true, ◌+◌, ◌<◌, ◌≤◌};
ghost use Rattle.matching.specs.Pairs.{touches};
ghost use Rattle.matching.specs.Graph.{Graph};
ghost use Rattle.slots.specs.Slots.{low_of, high_of};
ghost use Rattle.slots.specs.Working.{graph_in};
ghost use Rattle.finding.specs.Finding.{Quiet};
ghost use Rattle.leaves.specs.Runs.{KeptPoints, Slack, DueThere, LeafRunThere, Noted, Owes, TakenInSlots};

use buffers::map;
use cellfile::format::Rule;
use finding;
use finding::Step;
pub use places::Room;
use slots::graph::WorkingGraph;
use trail::words;

// The points of slot i, which has u, where its other cell has more pairs than this.
fn kept(graph: &WorkingGraph, u: usize, i: usize) -> Option<u64>
    requires { (i < graph.now.slots)
        × (touches u (low_of graph.now.w1.now i) (high_of graph.now.w1.now i) ≡ true) }
    ensures { KeptPoints graph.now.slots graph.now.w1.now u i result }
{
    let points = graph.w1[i];
    if points == 0 || graph.degree(graph.partner(u, i)) == 1 {
        return None;
    }
    Some(points)
}

// While the pairs at u lose less than this, only leaves lose theirs, and u keeps one.
fn slack(graph: &WorkingGraph, u: usize) -> u64
    requires { u < 1024 }
    ensures { Slack (graph_in graph.now) u result }
{
    let mut least = u64::MAX;
    let mut most: u64 = 0;
    let mut next = graph.last_slot(u);
    while let Some(i) = next {
        if let Some(points) = kept(graph, u, i) {
            least = least.min(points);
        }
        most = most.max(graph.w1[i]);
        next = graph.slot_before(u, i);
    }
    least.min(most)
}

// What a cell is to a run at u: no leaf, a leaf of u by a pair with these points, or a leaf of another cell.
#[derive(Clone, Copy)]
enum Due {
    Nothing,
    Points(u64),
    Elsewhere,
}

fn due_at(graph: &WorkingGraph, u: usize, c: usize) -> Due
    requires { c < 1024 }
    ensures { DueThere (graph_in graph.now) u c result }
{
    if graph.degree(c) != 1 {
        return Due::Nothing;
    }
    let only = graph.only(c);
    if only.partner != u {
        return Due::Elsewhere;
    }
    Due::Points(graph.w1[only.slot])
}

// The leaf step at v with its partner u is noted, behind k others.
fn note(graph: &mut WorkingGraph, room: Room, k: usize, u: usize, v: usize)
    requires { (k < room.most) × (u < 1024) × (v < 1024) }
    ensures { Noted (room.trail + k) (room.names + k) u v graph.old graph.new }
{
    let word = words::closing_word(Step::Leaf { v, u }, 0, false);
    graph.set_word(room.trail + k, word);
    let name = u64::from(Rule::Leaf) * map::CELL_FIELD + v as u64;
    graph.set_word(map::NAMES + room.names + k, name);
}

// A run: its steps, what they carry, and a cell below which there is no leaf after it.
#[derive(Clone, Copy)]
pub struct LeafRun {
    pub steps: usize,
    pub carried: u64,
    pub low: usize,
}

// Leaf steps at u, as reduce takes them from cell c on, are noted. The pairs at u are to lose what they carry; then no
// cell but u is a leaf below the run's.
fn take_leaves(graph: &mut WorkingGraph, n: usize, u: usize, c: usize, room: Room) -> LeafRun
    requires { LeafRunThere n u c graph.old }
    ensures { Owes n u room graph.old graph.new result }
{
    let slack = slack(graph, u);
    let mut steps = 0;
    let mut carried = 0;
    for v in c..n {
        let points = match due_at(graph, u, v) {
            Due::Nothing => continue,
            Due::Points(points) => points,
            Due::Elsewhere => {
                return LeafRun {
                    steps,
                    carried,
                    low: v,
                };
            }
        };
        if slack <= points || room.most <= steps {
            return LeafRun {
                steps,
                carried,
                low: v,
            };
        }
        if carried < points {
            note(graph, room, steps, u, v);
            carried = points;
            steps += 1;
        }
    }
    LeafRun {
        steps,
        carried,
        low: n,
    }
}

// As many slots as make a run worth its passes over them.
const MANY: u64 = 16;

// The run at u from the leaf c on; then every pair at u loses what is owed.
fn run_at(graph: &mut WorkingGraph, n: usize, u: usize, c: usize, room: Room) -> LeafRun
    requires { LeafRunThere n u c graph.old }
    ensures { TakenInSlots n room graph.old graph.new result }
{
    let run = take_leaves(graph, n, u, c, room);
    graph.lessen_all(u, run.carried);
    if graph.degree(u) == 1 {
        return LeafRun { low: 0, ..run };
    }
    run
}

// Leaf steps at one cell, as reduce takes them, where there is room and the first leaf's partner has many pairs. No
// cell below `low` is a leaf.
pub fn leaf_run(graph: &mut WorkingGraph, n: usize, low: usize, room: Room) -> LeafRun
    requires { (n ≤ 1024) × Graph n (graph_in graph.old) × Quiet low (graph_in graph.old) }
    ensures { TakenInSlots n room graph.old graph.new result }
{
    let none = LeafRun {
        steps: 0,
        carried: 0,
        low,
    };
    if room.most == 0 {
        return none;
    }
    let Some(c) = finding::first_leaf(graph, low, n) else {
        return LeafRun { low: n, ..none };
    };
    let u = graph.only(c).partner;
    if graph.degree(u) <= MANY {
        return LeafRun { low: c, ..none };
    }
    run_at(graph, n, u, c, room)
}
