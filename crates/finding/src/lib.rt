// Inner, for the reduction: finds a step on the working graph. See specs/Walks and specs/Finding.
#![tactic(auto)]

ghost use Rattle.std.specs.Prelude.{◌≡◌, ◌⊎◌, ◌≢◌, true, ◌<◌, ◌≤◌, None};
ghost use Rattle.matching.specs.Pairs.{touches};
ghost use Rattle.matching.specs.Graph.{Graph, degree};
ghost use Rattle.matching.specs.Steps.{by_leaf};
ghost use Rattle.matching.specs.Find.{first_step_of};
ghost use Rattle.slots.specs.Slots.{low_of, high_of, name_of, Joins};
ghost use Rattle.slots.specs.Found.{SlotOf};
ghost use Rattle.slots.specs.Working.{graph_in};
ghost use Rattle.finding.specs.Walks.{stretch_at, Onward, Stops};
ghost use Rattle.finding.specs.Finding.{step_from, Tells, RingTest, ChainTest, MayFind, FindsBy, FindsAt};
ghost use Rattle.finding.specs.Finding.{FirstLeaf, Unmet, Unnamed, Quiet, RingQuiet};
ghost use Rattle.cellfile.specs.Kinds.{as_rule};

use cellfile::format::Rule;
use slots::graph::WorkingGraph;

// No walk meets more cells.
const CELLS: usize = 1024;

// Where a walk stands: its cell, the cell before it, and the slot of the two.
#[derive(Clone, Copy)]
pub struct Stop {
    pub end: usize,
    pub last: usize,
    pub slot: usize,
}

impl Stop {
    // The same pair of cells the other way.
    #[inline]
    fn turned(self) -> Stop
        ensures { result ≡ record { end = self.last; last = self.end; slot = self.slot } }
    {
        Stop {
            end: self.last,
            last: self.end,
            slot: self.slot,
        }
    }
}

// The way out of c by its live slot i.
fn way_out(graph: &WorkingGraph, c: usize, i: usize) -> Stop
    requires { SlotOf graph.now.slots graph.now.w1.now c i }
    ensures { (result.last ≡ c) × (result.slot ≡ i) × Joins graph.now.slots graph.now.w1.now i c result.end
        × (result.end < 1024) }
{
    Stop {
        end: graph.partner(c, i),
        last: c,
        slot: i,
    }
}

// One cell on, over a cell of degree two.
#[inline]
pub fn onward(graph: &WorkingGraph, at: Stop) -> Stop
    requires { Joins graph.now.slots graph.now.w1.now at.slot at.last at.end × (at.end < 1024)
        × (degree 1024 (graph_in graph.now) at.end ≡ 2) }
    ensures { Onward graph.now.slots graph.now.w1.now at result }
{
    let next = graph.step_on(at.end, at.last, at.slot);
    Stop {
        end: next.partner,
        last: at.end,
        slot: next.slot,
    }
}

// Walks on over cells of degree two that are not below `low`.
fn walk(graph: &WorkingGraph, from: Stop, low: usize) -> Stop
    requires { Joins graph.now.slots graph.now.w1.now from.slot from.last from.end × (from.end < 1024) }
    ensures { Stops graph.now.slots graph.now.w1.now from.last
        (stretch_at (graph_in graph.now) low from.last from.end) result }
{
    let mut at = from;
    for _ in 0..CELLS {
        if at.end < low || graph.degree(at.end) != 2 {
            break;
        }
        at = onward(graph, at);
    }
    at
}

// A step with the cells that it stands on.
#[derive(Clone, Copy)]
pub enum Step {
    Leaf { v: usize, u: usize },
    Ring { u: usize, z: usize },
    Chain { u: usize, v: usize, z: usize },
}

// A step with the pair by which it is taken: of a leaf its only pair, else that of u with the first inner cell.
#[derive(Clone, Copy)]
pub struct Found {
    pub step: Step,
    pub first: usize,
    pub slot: usize,
}

// Whether the row that leaves u at p and comes from `before` to `end` is a ring at z.
fn is_ring(graph: &WorkingGraph, z: usize, u: usize, p: usize, before: usize, end: usize) -> bool
    requires { u < 1024 }
    ensures { Tells (RingTest (graph_in graph.now) z u p before end) result }
{
    end == u && p < before && (u < z || graph.degree(u) != 2)
}

// Whether it is a chain.
fn is_chain(graph: &WorkingGraph, u: usize, p: usize, before: usize, end: usize) -> bool
    requires { (u < 1024) × (end < 1024) }
    ensures { Tells (ChainTest (graph_in graph.now) u p before end) result }
{
    u < end && p != before && graph.degree(u) != 2 && graph.degree(end) != 2
}

// The ring or the chain at z that is met by a way out of z.
fn row_by(graph: &WorkingGraph, rule: Rule, way: Stop) -> Option<Found>
    requires { Joins graph.now.slots graph.now.w1.now way.slot way.last way.end × (way.end < 1024) × (way.last < 1024)
        × (as_rule rule ≢ by_leaf) × (degree 1024 (graph_in graph.now) way.last ≡ 2) }
    ensures { FindsBy graph.now.slots graph.now.w1.now (as_rule rule) way.last way.end result }
{
    let z = way.last;
    let out = walk(graph, way, z + 1);
    let u = out.end;
    if u == z {
        return None;
    }
    let back = walk(graph, out.turned(), z);
    let v = back.end;
    let step = match rule {
        Rule::Ring => {
            if !is_ring(graph, z, u, out.last, back.last, v) {
                return None;
            }
            Step::Ring { u, z }
        }
        _ => {
            if !is_chain(graph, u, out.last, back.last, v) {
                return None;
            }
            Step::Chain { u, v, z }
        }
    };
    Some(Found {
        step,
        first: out.last,
        slot: out.slot,
    })
}

// The ring or the chain at z that is met by slot i, which has z.
fn row_by_slot(graph: &WorkingGraph, rule: Rule, z: usize, i: usize) -> Option<Found>
    requires { (z < 1024) × (i < graph.now.slots)
        × (touches z (low_of graph.now.w1.now i) (high_of graph.now.w1.now i) ≡ true)
        × (as_rule rule ≢ by_leaf) × (degree 1024 (graph_in graph.now) z ≡ 2) }
    ensures { FindsAt graph.now.slots graph.now.w1.now (as_rule rule) z i result }
{
    if graph.w1[i] == 0 {
        return None;
    }
    row_by(graph, rule, way_out(graph, z, i))
}

// Whether z is ruled out where the two ways out of it have met, so that its row is a ring of cells of degree two: there
// is no chain then, and a ring is not named by its lowest cell. One way came from `last`, where the other goes on:
// `next`.
fn ring_rules_out(rule: Rule, seen: Option<usize>, last: usize, next: usize) -> bool
    ensures { result ≡ true → (next ≡ last) × ((rule ≢ Rule.Ring) ⊎ (seen ≡ None)) }
{
    next == last && (rule != Rule::Ring || seen.is_none())
}

// Whether the row of z shows that no ring and no chain is named by z, where `first` is a way out of z. Both ways are
// walked in turns until lower cells of degree two are seen, one for a chain, for a ring two, or one and a cell of
// another degree; or until the ways meet.
fn ruled_out(graph: &WorkingGraph, rule: Rule, first: Stop) -> bool
    requires { Joins graph.now.slots graph.now.w1.now first.slot first.last first.end × (first.end < 1024)
        × (first.last < 1024) × (as_rule rule ≢ by_leaf) × (degree 1024 (graph_in graph.now) first.last ≡ 2) }
    ensures { result ≡ true → Unnamed (graph_in graph.now) (as_rule rule) first.last }
{
    let z = first.last;
    let mut way = first;
    let mut other = onward(graph, first.turned());
    let mut seen = None;
    for _ in 0..2 * CELLS {
        if way.end == other.last {
            return ring_rules_out(rule, seen, way.last, other.end);
        }
        if graph.degree(way.end) != 2 {
            return seen.is_some();
        }
        if way.end < z {
            if rule != Rule::Ring {
                return true;
            }
            match seen {
                Some(lower) if lower != way.end => return true,
                _ => seen = Some(way.end),
            }
        }
        let on = onward(graph, way);
        way = other;
        other = on;
    }
    false
}

// The last live slot of z, where z has degree two and is not ruled out.
fn start(graph: &WorkingGraph, rule: Rule, z: usize) -> Option<usize>
    requires { (z < 1024) × (as_rule rule ≢ by_leaf) }
    ensures { Unmet graph.now.slots graph.now.w1.now (as_rule rule) z (name_of result) }
{
    if graph.degree(z) != 2 {
        return None;
    }
    let mut next = graph.last_slot(z);
    while let Some(i) = next {
        if graph.w1[i] != 0 {
            if ruled_out(graph, rule, way_out(graph, z, i)) {
                return None;
            }
            return Some(i);
        }
        next = graph.slot_before(z, i);
    }
    None
}

// The first cell of degree one from `from` to before `to`.
pub fn first_leaf(graph: &WorkingGraph, from: usize, to: usize) -> Option<usize>
    requires { to ≤ 1024 }
    ensures { FirstLeaf (graph_in graph.now) from to result }
{
    (from..to).find(|&c| graph.degree(c) == 1)
}

// The first leaf step at the cells from `from` to before `to`: a leaf has one pair, so no slots are gone over.
fn leaf_step(graph: &WorkingGraph, from: usize, to: usize) -> Option<Found>
    requires { to ≤ 1024 }
    ensures { MayFind graph.now.slots graph.now.w1.now (step_from (graph_in graph.now) by_leaf from to) result }
{
    let v = first_leaf(graph, from, to)?;
    let only = graph.only(v);
    Some(Found {
        step: Step::Leaf { v, u: only.partner },
        first: only.partner,
        slot: only.slot,
    })
}

// The first ring or chain step there: it is the first that is allowed.
fn row_step(graph: &WorkingGraph, rule: Rule, from: usize, to: usize) -> Option<Found>
    requires { (to ≤ 1024) × (as_rule rule ≢ by_leaf) }
    ensures { MayFind graph.now.slots graph.now.w1.now
        (step_from (graph_in graph.now) (as_rule rule) from to) result }
{
    let mut found = None;
    'search: for z in from..to {
        let mut next = start(graph, rule, z);
        while let Some(i) = next {
            if let Some(step) = row_by_slot(graph, rule, z, i) {
                found = Some(step);
                break 'search;
            }
            next = graph.slot_before(z, i);
        }
    }
    found
}

// The first step of a rule at the cells from `from` to before `to`.
pub fn scan(graph: &WorkingGraph, rule: Rule, from: usize, to: usize) -> Option<Found>
    requires { to ≤ 1024 }
    ensures { MayFind graph.now.slots graph.now.w1.now
        (step_from (graph_in graph.now) (as_rule rule) from to) result }
{
    match rule {
        Rule::Leaf => leaf_step(graph, from, to),
        Rule::Ring | Rule::Chain => row_step(graph, rule, from, to),
    }
}

// The step that reduce takes: a leaf at the lowest cell; without one a ring; without one a chain. No cell below `low`
// is a leaf, none below `rings` is named by a ring step.
pub fn first_step(graph: &WorkingGraph, n: usize, low: usize, rings: usize) -> Option<Found>
    requires { (n ≤ 1024) × Graph n (graph_in graph.now) × Quiet low (graph_in graph.now)
        × RingQuiet rings (graph_in graph.now) }
    ensures { MayFind graph.now.slots graph.now.w1.now (first_step_of n (graph_in graph.now)) result }
{
    if let Some(leaf) = leaf_step(graph, low, n) {
        return Some(leaf);
    }
    if let Some(ring) = row_step(graph, Rule::Ring, rings, n) {
        return Some(ring);
    }
    row_step(graph, Rule::Chain, 0, n)
}
