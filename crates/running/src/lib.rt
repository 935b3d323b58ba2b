// Inner, for the calls: the loop over the steps of a slip and then those of reduce. See specs/Running and specs/Course.
#![tactic(auto)]

pub mod lists;

ghost use Rattle.std.specs.Prelude.{◌≡◌, List, ℕ, true, ◌+◌, ◌*◌, ◌≤◌, ◌<◌, length};
ghost use Rattle.buffers.specs.Map.{trail_room};
ghost use Rattle.matching.specs.Pairs.{Points};
ghost use Rattle.matching.specs.Steps.{Rule as rules};
ghost use Rattle.cellfile.specs.Files.{number_of};
ghost use Rattle.cellfile.specs.Kinds.{as_rule};
ghost use Rattle.slots.specs.Working.{graph_in, SameBuffers};
ghost use Rattle.finding.specs.Finding.{MayFind};
ghost use Rattle.running.specs.Running.{names_of, steps_in, name_in, next_step_of, NamedAt, Spare, Asked, Runs};
ghost use Rattle.running.specs.Running.{Coursing, FoundThere, Emptied};

use bounds::Bounds;
use buffers;
use buffers::map::{CELL_FIELD, NAMES, TRAIL_WORDS};
use cellfile::decode::SlipStep;
use cellfile::format::Rule;
use cellfile::records::Records;
use checks::Refusal;
use finding;
use finding::{Found, Step};
use leaves;
use leaves::Room;
use slots::graph::WorkingGraph;
use taking;

// What the steps left beside the graph: the words on the trail, the points carried, and the number of steps, which
// stand as words from NAMES on in the second buffer.
#[derive(Clone, Copy)]
pub struct Ran {
    pub trail: usize,
    pub carried: u64,
    pub steps: usize,
}

// How a slip names a step.
#[derive(Clone, Copy)]
pub struct Name {
    pub rule: Rule,
    pub cell: usize,
}

impl From<Step> for Name {
    ghost from_gives = { λ step name. name ≡ name_in step };

    fn from(step: Step) -> Name {
        match step {
            Step::Leaf { v, u: _ } => Name {
                rule: Rule::Leaf,
                cell: v,
            },
            Step::Ring { u: _, z } => Name {
                rule: Rule::Ring,
                cell: z,
            },
            Step::Chain { u: _, v: _, z } => Name {
                rule: Rule::Chain,
                cell: z,
            },
        }
    }
}

impl Name {
    // The word of a slip.
    fn word(self) -> u64
        requires { self.cell < 1024 }
        ensures { result ≡ number_of (as_rule self.rule) * 1024 + self.cell }
    {
        u64::from(self.rule) * CELL_FIELD + self.cell as u64
    }
}

// Where the loop stands: what the steps so far left, and the bounds of the search.
#[derive(Clone, Copy)]
struct Place {
    taken: Ran,
    bounds: Bounds,
}

// How many steps a slip names; none where there is no slip.
fn count_of(slip: Option<&Records<'_, SlipStep>>) -> usize
    ensures { result ≡ length (steps_in slip.entry (λ r. names_of r.now.file.now)) }
{
    slip.map_or(0, |steps| steps.count)
}

// The step that a slip names after k others.
fn named(slip: Option<&Records<'_, SlipStep>>, k: usize) -> Option<SlipStep>
    ensures { NamedAt (steps_in slip.entry (λ r. names_of r.now.file.now)) k result }
{
    let steps = slip?;
    let step = || steps.get(k);
    (k < steps.count).then(step)
}

// The step that comes next: the one that the slip names, or behind its steps the one that reduce takes.
fn next(
    graph: &WorkingGraph,
    n: usize,
    slip: Option<&Records<'_, SlipStep>>,
    at: Place,
) -> Option<Found>
    requires { (w : Points) × (more : ℕ)
        × Coursing n w (steps_in slip (λ r. names_of r.now.file.now)) more at graph.now }
    ensures { MayFind graph.now.slots graph.now.w1.now
        (next_step_of n (graph_in graph.now) (steps_in slip.entry (λ r. names_of r.now.file.now)) at.taken.steps)
        result }
{
    match named(slip, at.taken.steps) {
        Some(t) => finding::scan(graph, Rule::named(t.rule), t.cell, t.cell + 1),
        None => finding::first_step(graph, n, at.bounds.low, at.bounds.rings),
    }
}

const MOST_STEPS: usize = 1024;

// The room for more steps as reduce takes them; none where the slip has steps left.
fn spare(m: usize, more: usize, taken: Ran) -> Room
    requires { (taken.steps ≤ 1024) × (taken.trail ≤ trail_room) × (taken.steps ≤ m + more) × (m < 8192)
        × (more ≤ 1024) }
    ensures { Spare m more taken result }
{
    let Ran {
        trail,
        carried: _,
        steps,
    } = taken;
    if steps < m {
        return Room {
            trail,
            names: steps,
            most: 0,
        };
    }
    let most = (MOST_STEPS - steps)
        .min(TRAIL_WORDS - trail)
        .min(m + more - steps);
    Room {
        trail,
        names: steps,
        most,
    }
}

// Takes the step that was found and writes its name.
fn take_found(graph: &mut WorkingGraph, m: usize, at: Place, x: Found) -> Place
    requires { FoundThere m at x graph.old }
    ensures steps { result.taken.steps ≡ at.taken.steps + 1 }
    ensures buffers { SameBuffers graph.old graph.new }
    ensures on { (h : FoundThere m at x graph.old) → Coursing h.n h.w h.rs h.more result graph.new }
{
    let Ran {
        trail,
        carried,
        steps,
    } = at.taken;
    let bounds = at.bounds.after(graph, x.step).rings_left(m <= steps);
    let step = taking::take_step(graph, trail, x);
    graph.set_word(NAMES + steps, Name::from(x.step).word());
    Place {
        taken: Ran {
            trail: step.trail,
            carried: carried + step.carried,
            steps: steps + 1,
        },
        bounds,
    }
}

// Takes a run of leaf steps, where reduce takes the steps.
fn leaf_steps(graph: &mut WorkingGraph, n: usize, m: usize, more: usize, at: Place) -> Place
    requires { (w : Points) × (rs : List (rules × ℕ)) × (m ≡ length rs) × Coursing n w rs more at graph.old }
    ensures steps { at.taken.steps ≤ result.taken.steps }
    ensures buffers { SameBuffers graph.old graph.new }
    ensures on { (w : Points) (rs : List (rules × ℕ)) → m ≡ length rs → Coursing n w rs more at graph.old
        → Coursing n w rs more result graph.new }
{
    let Ran {
        trail,
        carried,
        steps,
    } = at.taken;
    let run = leaves::leaf_run(graph, n, at.bounds.low, spare(m, more, at.taken));
    let bounds = Bounds {
        low: run.low,
        rings: at.bounds.rings,
    };
    Place {
        taken: Ran {
            trail: trail + run.steps,
            carried: carried + run.carried,
            steps: steps + run.steps,
        },
        bounds: bounds.rings_left(run.steps == 0),
    }
}

// The buffers are zero, which hold the empty graph.
fn empty(graph: &mut WorkingGraph)
    ensures { Emptied graph.old graph.new }
{
    let WorkingGraph { w1, w2, slots } = graph;
    buffers::clear(w1);
    buffers::clear(w2);
    *slots = 0;
}

// Takes the steps of the slip, then at most `more` steps as reduce takes them. Where a step of the slip is not allowed,
// the buffers are zero afterwards.
pub fn run(
    graph: &mut WorkingGraph,
    n: usize,
    slip: Option<&Records<'_, SlipStep>>,
    more: usize,
) -> Result<Ran, Refusal>
    requires { Asked n (graph_in graph.old) (steps_in slip (λ r. names_of r.now.file.now)) more }
    ensures { Runs n (graph_in graph.old) (steps_in slip.entry (λ r. names_of r.now.file.now)) more
        graph.old graph.new result }
{
    let m = count_of(slip);
    let mut at = Place {
        taken: Ran {
            trail: 0,
            carried: 0,
            steps: 0,
        },
        bounds: Bounds { low: 0, rings: 0 },
    };
    // A round takes one step, and the run of leaves behind it.
    while at.taken.steps < m + more {
        let Some(found) = next(graph, n, slip, at) else {
            if at.taken.steps < m {
                empty(graph);
                return Err(Refusal::Disallowed);
            }
            break;
        };
        let stepped = take_found(graph, m, at, found);
        at = leaf_steps(graph, n, m, more, stepped);
    }
    Ok(at.taken)
}
