// Inner, for the reduction: the bounds of the search, kept from step to step. See specs/Bounds.
#![tactic(auto)]

ghost use Rattle.std.specs.Prelude.{◌≡◌, ◌⊎◌, true, ◌<◌};
ghost use Rattle.slots.specs.Working.{graph_in};
ghost use Rattle.bounds.specs.Bounds.{Near, Quieted, RingQuieted};

use finding::Step;
use slots::graph::WorkingGraph;

// No cell below `low` is a leaf, none below `rings` is named by a ring step.
#[derive(Clone, Copy)]
pub struct Bounds {
    pub low: usize,
    pub rings: usize,
}

// How many slots of a cell are looked at for its lowest partner.
const LOOKED_AT: usize = 16;

// No graph has more cells.
const CELLS: usize = 1024;

// A number not above `low`, u and any partner of u; 0 where u has many slots.
fn lowest_near(graph: &WorkingGraph, u: usize, low: usize) -> usize
    requires { u < 1024 }
    ensures { Near (graph_in graph.now) u low result }
{
    let mut least = low.min(u);
    let mut next = graph.last_slot(u);
    for _ in 0..LOOKED_AT {
        let Some(i) = next else {
            return least;
        };
        if graph.w1[i] != 0 {
            least = least.min(graph.partner(u, i));
        }
        next = graph.slot_before(u, i);
    }
    next.map_or(least, |_| 0)
}

// Below this cell no leaf is left by a step, where there was none below `low` before it.
fn quiet_after(graph: &WorkingGraph, step: Step, low: usize) -> usize
    ensures { Quieted (graph_in graph.now) step low result }
{
    match step {
        Step::Leaf { v, u } if u < CELLS => lowest_near(graph, u, low.min(v)),
        Step::Leaf { .. } => 0,
        Step::Ring { u, z } => low.min(u.min(z)),
        Step::Chain { u, v: _, z } => low.min(u.min(z)),
    }
}

// Below this cell no ring step is named after a step, where none was below `rings` before it.
fn rings_after(graph: &WorkingGraph, step: Step, rings: usize) -> usize
    ensures { RingQuieted (graph_in graph.now) step rings result }
{
    match step {
        Step::Leaf { v: _, u } if u < CELLS && graph.degree(u) == 1 => rings,
        Step::Ring { u, z } if u < CELLS && graph.degree(u) == 2 => z,
        _ => 0,
    }
}

impl Bounds {
    // The bounds after a step.
    pub fn after(self, graph: &WorkingGraph, step: Step) -> Bounds
        ensures leaves { Quieted (graph_in graph.now) step self.low result.low }
        ensures rings { RingQuieted (graph_in graph.now) step self.rings result.rings }
    {
        Bounds {
            low: quiet_after(graph, step, self.low),
            rings: rings_after(graph, step, self.rings),
        }
    }

    // The bound for rings stays, or goes.
    pub fn rings_left(self, stay: bool) -> Bounds
        ensures low { result.low ≡ self.low }
        ensures rings { (result.rings ≡ 0) ⊎ ((stay ≡ true) × (result.rings ≡ self.rings)) }
    {
        Bounds {
            low: self.low,
            rings: if stay { self.rings } else { 0 },
        }
    }
}
