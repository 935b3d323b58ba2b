// Inner, for solving: the connected groups of the cells left, by labels. See specs/Labels and specs/Finding.
#![tactic(auto)]

ghost use Rattle.std.specs.Prelude.{◌≡◌, cond, ℕ, suc, ◌+◌, ◌<◌, ◌≤◌, ltb, length};
ghost use Rattle.matching.specs.Pairs.{Points};
ghost use Rattle.matching.specs.Graph.{Graph};
ghost use Rattle.slots.specs.Working.{graph_in, WordsSet};
ghost use Rattle.grouping.specs.Labels.{Labels};
ghost use Rattle.grouping.specs.Finding.{label_in, link_in, named, OwnIn, PairsThere, Sweeps, LevelThere, Levels};
ghost use Rattle.grouping.specs.Finding.{LinkThere, Linked};

use buffers::map::{CELL_WORDS, LABELS, LINK_FIELD, POINTS_UNIT};
use slots::graph::WorkingGraph;

// So many sweeps are enough where no group has more than 12 cells.
const SWEEPS: usize = 12;

// The first label of a cell that has so many pairs: its number and 1, or 0 where it has none.
fn own_label(c: usize, pairs: u64) -> u64
    requires { c < 1024 }
    ensures { result ≡ cond (ltb 0 pairs) (suc c) 0 }
{
    if pairs == 0 { 0 } else { c as u64 + 1 }
}

// Each cell gets its first label, for the graph of n cells.
pub fn own_labels(graph: &mut WorkingGraph, n: usize)
    requires { (n ≤ 1024) × Graph n (graph_in graph.old) }
    ensures { OwnIn n (graph_in graph.old) graph.old.w2.now graph.new.w2.now × WordsSet graph.old graph.new }
{
    for c in 0..n {
        let pairs = graph.degree(c);
        graph.set_word(LABELS + c, own_label(c, pairs));
    }
}

// A sweep over the r pairs that stand as rows and cells, each of which gives both its ends the smaller label: whether
// it came to a pair whose ends had two labels.
fn sweep(w1: &[u64], w2: &mut [u64], r: usize) -> bool
    requires { PairsThere r w1.now w2.old }
    ensures { Sweeps r w1.now w2.old w2.new result }
{
    let mut met = false;
    for i in 0..r {
        let a = w1[CELL_WORDS + i] as usize;
        let b = (w1[i] / POINTS_UNIT) as usize;
        let x = w2[LABELS + a];
        let y = w2[LABELS + b];
        if x != y {
            let low = x.min(y);
            w2[LABELS + a] = low;
            w2[LABELS + b] = low;
            met = true;
        }
    }
    met
}

// Sweeps until no pair has two labels at its ends; false where some group has more than 12 cells.
pub fn level(w1: &[u64], w2: &mut [u64], r: usize) -> bool
    requires { (n : ℕ) × (w : Points) × LevelThere n w r w1.now w2.old }
    ensures { (n : ℕ) (w : Points) → LevelThere n w r w1.now w2.old
        → Levels n w w2.old w2.new result }
{
    for _ in 0..SWEEPS {
        if !sweep(w1, w2, r) {
            return true;
        }
    }
    false
}

// The first cell of the group of the cell c, which the label of c names; none where c has no pairs.
pub fn first(w2: &[u64], c: usize) -> Option<usize>
    requires { LABELS + c < length w2.now }
    ensures { result ≡ named (label_in w2.now c) }
{
    (w2[LABELS + c] % LINK_FIELD)
        .checked_sub(1)
        .map(|d| d as usize)
}

// The next cell of its group, which the link of the cell c names; none where c is the last.
pub fn next(w2: &[u64], c: usize) -> Option<usize>
    requires { LABELS + c < length w2.now }
    ensures { result ≡ named (link_in w2.now c) }
{
    (w2[LABELS + c] / LINK_FIELD)
        .checked_sub(1)
        .map(|d| d as usize)
}

// The cell c is put into the links of its group, behind the first cell; or it is the first, or has no pairs.
fn link_cell(w2: &mut [u64], c: usize)
    requires { ((n : ℕ) × (l : Labels) × LinkThere n l (suc c) w2.old) × (c < 1024) }
    ensures { (n : ℕ) (l : Labels) → LinkThere n l (suc c) w2.old
        → Linked n l c w2.old w2.new }
{
    let Some(d) = first(w2, c) else {
        return;
    };
    if d == c {
        return;
    }
    let label = d as u64 + 1;
    let word = w2[LABELS + d];
    w2[LABELS + c] = label + word / LINK_FIELD * LINK_FIELD;
    w2[LABELS + d] = label + (c as u64 + 1) * LINK_FIELD;
}

// Links the cells of each group, ascending, from its first cell on.
pub fn link(w2: &mut [u64], n: usize)
    requires { (l : Labels) × LinkThere n l n w2.old }
    ensures { (l : Labels) → LinkThere n l n w2.old
        → Linked n l 0 w2.old w2.new }
{
    for c in (0..n).rev() {
        link_cell(w2, c);
    }
}
