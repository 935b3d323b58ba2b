// Inner, for the reduction: takes a step that was found. See specs/Applying, and specs/Parts for its parts.
#![tactic(auto)]

ghost use Rattle.std.specs.Prelude.{◌≡◌, ◌+◌, ◌-◌, ◌≤◌, take, drop};
ghost use Rattle.buffers.specs.Map.{trail_room};
ghost use Rattle.matching.specs.Steps.{leaf, ring, chain};
ghost use Rattle.slots.specs.Slots.{live};
ghost use Rattle.slots.specs.Working.{graph_in, Changes};
ghost use Rattle.finding.specs.Finding.{step_of};
ghost use Rattle.trail.specs.Taking.{inner_of, RowThere};
ghost use Rattle.taking.specs.Applying.{StepThere, StepTaken};
ghost use Rattle.taking.specs.Parts.{entered, RowGone, LeafThere, RingThere, ChainThere};

use finding::{Found, Step, Stop};
use putting::Ends;
use rows::Row;
use slots::graph::WorkingGraph;
use trail::words;

// After a step: the words on the trail, and what the step carries.
#[derive(Clone, Copy)]
pub struct Taken {
    pub trail: usize,
    pub carried: u64,
}

const SLOTS: usize = 4096;

// Three slots are to be free: where fewer are, gone slots are dropped.
fn room(graph: &mut WorkingGraph)
    requires { live graph.old.slots graph.old.w1.now + 3 ≤ 4096 }
    ensures { Changes graph.new.slots (graph_in graph.old) graph.old graph.new × (graph.new.slots ≤ 4093) }
{
    if graph.slots > SLOTS - 3 {
        graph.pack();
    }
}

// The row that is entered at a stop goes, to its end v, as `take_row` takes it; then three slots are free. The number
// of its pairs.
fn clear_row(graph: &mut WorkingGraph, t: usize, from: Stop, v: usize) -> usize
    requires { RowThere graph.old t from v }
    ensures { RowGone graph.old graph.new t from v result }
{
    let pairs = trail::take_row(graph, t, from, v);
    room(graph);
    pairs
}

// The row whose words stand on the trail from place t to before `end`.
fn row_on_trail<'a>(graph: &'a WorkingGraph<'_>, t: usize, end: usize) -> Row<'a>
    requires { (t + 3 ≤ end) × (end ≤ t + 1024) × (end ≤ trail_room) }
    ensures { result.words.now ≡ take (end - t) (drop t graph.now.w2.now) }
{
    Row {
        words: &graph.w2[t..end],
    }
}

// The leaf step at v, whose only pair is that of slot i, with u.
fn take_leaf(graph: &mut WorkingGraph, t: usize, v: usize, u: usize, i: usize) -> Taken
    requires { LeafThere graph.old t v u i }
    ensures { StepTaken graph.old graph.new t (leaf u v) result }
{
    let carried = graph.leaf(v, u, i);
    graph.set_word(t, words::closing_word(Step::Leaf { v, u }, 0, false));
    Taken {
        trail: t + 1,
        carried,
    }
}

// The ring step at z, of the ring that is entered at a stop.
fn take_ring(graph: &mut WorkingGraph, t: usize, z: usize, from: Stop) -> Taken
    requires { RingThere graph.old t z from }
    ensures { StepTaken graph.old graph.new t (ring from.last z (inner_of graph.old from)) result }
{
    let u = from.last;
    let pairs = clear_row(graph, t, from, u);
    let end = t + pairs;
    let points = row_on_trail(graph, t, end).ring_points();
    putting::put_pair(graph, u, z, points.whole - points.less_u);
    graph.set_word(end, words::closing_word(Step::Ring { u, z }, pairs, false));
    Taken {
        trail: end + 1,
        carried: points.less_u,
    }
}

// The chain step at z, of the chain that is entered at a stop and ends at v.
fn take_chain(graph: &mut WorkingGraph, t: usize, v: usize, z: usize, from: Stop) -> Taken
    requires { ChainThere graph.old t v z from }
    ensures { StepTaken graph.old graph.new t (chain from.last v z (inner_of graph.old from)) result }
{
    let u = from.last;
    let pairs = clear_row(graph, t, from, v);
    let end = t + pairs;
    let points = row_on_trail(graph, t, end).chain_points();
    let q = points.inner;
    let ends = Ends {
        u,
        v,
        z,
        uv: points.whole - q,
        vz: points.less_u - q,
        uz: points.less_v - q,
    };
    let more = putting::put_ends(graph, ends);
    graph.set_word(
        end,
        words::closing_word(Step::Chain { u, v, z }, pairs, more),
    );
    Taken {
        trail: end + 1,
        carried: q,
    }
}

// Where the row of a step that was found is entered from u.
fn entry(x: Found, u: usize) -> Stop
    ensures { result ≡ entered x u }
{
    Stop {
        end: x.first,
        last: u,
        slot: x.slot,
    }
}

// Takes the step that was found.
pub fn take_step(graph: &mut WorkingGraph, t: usize, x: Found) -> Taken
    requires { StepThere graph.old t x }
    ensures { StepTaken graph.old graph.new t (step_of (graph_in graph.old) x) result }
{
    match x.step {
        Step::Leaf { v, u } => take_leaf(graph, t, v, u, x.slot),
        Step::Ring { u, z } => take_ring(graph, t, z, entry(x, u)),
        Step::Chain { u, v, z } => take_chain(graph, t, v, z, entry(x, u)),
    }
}
