// Inner, for solve and pair: solves what is left in the slots, group by group. See specs/Left, and specs/Joined for its
// parts.
#![tactic(auto)]

ghost use Rattle.std.specs.Prelude.{◌≡◌, List, ℕ, suc, ◌<◌, ◌≤◌};
ghost use Rattle.matching.specs.Pairs.{Pair, Points};
ghost use Rattle.grouping.specs.Labels.{Labels};
ghost use Rattle.slots.specs.Slots.{Holds, graph_of};
ghost use Rattle.matching.specs.Graph.{Graph};
ghost use Rattle.grouping.specs.Finding.{OwnIn};
ghost use Rattle.solving.specs.Left.{LeftThere, Solves};
ghost use Rattle.solving.specs.Joined.{JoinThere, Joins, GroupsThere, GroupSolves, LabelsThere, SetOut};

use buffers::map::{PLACES, POINTS};
use gathering;
use grouping;
use origins::Origin;
use partners::table::Table;
use running::lists;
use sets;
use slots::graph::WorkingGraph;

// The pairs of the heaviest pairing of the cells at the first k places go into the table of partners: its points.
fn join_group(w1: &mut [u64], w2: &mut [u64], k: usize) -> u64
    requires { (w : Points) × (cs : List ℕ) × (m : List Pair) × JoinThere w cs m k w1.old w2.old }
    ensures { (w : Points) (cs : List ℕ) (m : List Pair)
        → JoinThere w cs m k w1.old w2.old
        → Joins w cs m w1.old w1.new w2.old w2.new result }
{
    let all = sets::first_places(k);
    let points = sets::points_of(&w2[POINTS..PLACES], w1, k, all);
    let mut left = all;
    // A round takes one place out of the set, or two.
    while left != 0 {
        let taken = sets::take_lowest(&w2[POINTS..PLACES], w1, k, left);
        left = taken.rest;
        let Some(partner) = taken.partner else {
            continue;
        };
        let a = w2[PLACES + taken.low] as usize;
        let b = w2[PLACES + partner] as usize;
        Table { words: w2 }.join(a, b, Origin::Short);
    }
    points
}

// The group whose first cell is d is solved and joined to those before it: the points of its solution; none if it has
// more than 12 cells.
fn solve_group(w1: &mut [u64], w2: &mut [u64], d: usize) -> Option<u64>
    requires { (n : ℕ) × (w : Points) × (l : Labels) × GroupsThere n w l d w1.old w2.old × (d < n)
        × (l d ≡ suc d) }
    ensures { (n : ℕ) (w : Points) (l : Labels) → GroupsThere n w l d w1.old w2.old
        → d < n → l d ≡ suc d → GroupSolves n w l d w1.new w2.old w2.new result }
{
    let k = gathering::gather_cells(w2, d)?;
    gathering::gather_points(w1, w2, k);
    sets::clear_sets(w1, k);
    Some(join_group(w1, w2, k))
}

// The groups of n cells are solved one by one, each at its first cell: the points of all; none if some group has more
// than 12 cells.
fn solve_groups(w1: &mut [u64], w2: &mut [u64], n: usize) -> Option<u64>
    requires { (w : Points) × (l : Labels) × GroupsThere n w l 0 w1.old w2.old }
    ensures { (w : Points) (l : Labels) → GroupsThere n w l 0 w1.old w2.old
        → Solves n w w2.old w2.new result }
{
    let mut points = 0;
    for d in 0..n {
        if grouping::first(w2, d) == Some(d) {
            points += solve_group(w1, w2, d)?;
        }
    }
    Some(points)
}

// Links, starts of runs, cleared words for crate sets and an empty table, for the labels of n cells and r rows.
fn set_out(w1: &[u64], w2: &mut [u64], r: usize, n: usize)
    requires { (w : Points) × (l : Labels) × LabelsThere n w l r w1.now w2.old }
    ensures { (w : Points) (l : Labels) → LabelsThere n w l r w1.now w2.old
        → SetOut n w l w1.now w2.old w2.new }
{
    grouping::link(w2, n);
    gathering::find_starts(w1, w2, r, n);
    gathering::blank(w2);
    let mut table = Table { words: w2 };
    table.clear();
}

// Each cell of the graph of n cells in e slots gets its first label.
fn label(w1: &mut [u64], w2: &mut [u64], e: usize, n: usize)
    requires { (n ≤ 1024) × Holds e w1.old w2.old × Graph n (graph_of e w1.old) }
    ensures { OwnIn n (graph_of e w1.old) w2.old w2.new × (w1.new ≡ w1.old) }
{
    let mut graph = WorkingGraph { w1, w2, slots: e };
    grouping::own_labels(&mut graph, n);
}

// The solution of the graph of n cells in e slots, in the table of partners, and its points; none if some group has
// more than 12 cells, which is refusal 11.
pub fn solve_left(w1: &mut [u64], w2: &mut [u64], e: usize, n: usize) -> Option<u64>
    requires { LeftThere n e w1.old w2.old }
    ensures { Solves n (graph_of e w1.old) w2.old w2.new result }
{
    label(w1, w2, e, n);
    let r = lists::finish(w1, e);
    if !grouping::level(w1, w2, r) {
        return None;
    }
    set_out(w1, w2, r, n);
    solve_groups(w1, w2, n)
}
