// Inner, for solving: the cells of a group and the points between them, gathered for crate sets. See specs/Gathered.
#![tactic(auto)]

ghost use Rattle.std.specs.Prelude.{◌≡◌, List, ℕ, ◌+◌, ◌≤◌, ◌<◌, length};
ghost use Rattle.matching.specs.Pairs.{Points};
ghost use Rattle.gathering.specs.Gathered.{points_between, RunEnd, StartsThere, StartsIn, Blank, LinksThere, Gathers};
ghost use Rattle.gathering.specs.Gathered.{PlacesThere, RowIn, PointsIn};

use buffers::map::{CELL_WORDS, PLACES, POINTS, POINTS_UNIT, STARTS};
use grouping;
use sets::MOST;

// The first row from i on, of r rows, whose lower cell is not a.
fn run_end(w1: &[u64], i: usize, r: usize, a: usize) -> usize
    requires { (8192 ≤ length w1.now) × (i ≤ r) × (r ≤ 4096) }
    ensures { RunEnd i r a w1.now result }
{
    (i..r)
        .find(|&j| w1[CELL_WORDS + j] != a as u64)
        .unwrap_or(r)
}

// Where the run of the rows of each of n cells starts, among r rows.
pub fn find_starts(w1: &[u64], w2: &mut [u64], r: usize, n: usize)
    requires { (w : Points) × StartsThere n w r w1.now w2.old }
    ensures { (w : Points) → StartsThere n w r w1.now w2.old
        → StartsIn n w w2.old w2.new }
{
    let mut i = 0;
    for a in 0..n {
        w2[STARTS + a] = i as u64;
        i = run_end(w1, i, r, a);
    }
}

// The words for crate sets are cleared.
pub fn blank(w2: &mut [u64])
    requires { 8192 ≤ length w2.old }
    ensures { Blank w2.old w2.new }
{
    w2[POINTS..PLACES + MOST].fill(0);
}

// The cells that the links lead over from d on are stored at their places: how many they are, if no more than 12.
pub fn gather_cells(w2: &mut [u64], d: usize) -> Option<usize>
    requires { (cs : List ℕ) × LinksThere cs d w2.old }
    ensures { (cs : List ℕ) → LinksThere cs d w2.old
        → Gathers cs w2.old w2.new result }
{
    let mut c = d;
    for k in 0..MOST {
        w2[PLACES + k] = c as u64;
        let Some(next) = grouping::next(w2, c) else {
            return Some(k + 1);
        };
        c = next;
    }
    None
}

// The points of the row at e, if it is before the end and of the cell b.
fn points_at(w1: &[u64], e: usize, end: usize, b: u64) -> Option<u64>
    requires { end ≤ length w1.now }
    ensures { result ≡ points_between w1.now e end b }
{
    let row = *w1[..end].get(e)?;
    (row / POINTS_UNIT == b).then_some(row % POINTS_UNIT)
}

// The points between the cell at place i and those at the places behind it, of k, are stored. The run of the cell's
// rows is met in order.
fn gather_row(w1: &[u64], w2: &mut [u64], k: usize, i: usize)
    requires { ((w : Points) × (cs : List ℕ) × PlacesThere w cs k w1.now w2.old) × (i + 1 < k) }
    ensures { (w : Points) (cs : List ℕ) → PlacesThere w cs k w1.now w2.old
        → RowIn w cs k i w2.old w2.new }
{
    let a = w2[PLACES + i] as usize;
    let end = w2[STARTS + a + 1] as usize;
    let mut e = w2[STARTS + a] as usize;
    for j in i + 1..k {
        let at = POINTS + (MOST * i + j);
        match points_at(w1, e, end, w2[PLACES + j]) {
            Some(points) => {
                w2[at] = points;
                e += 1;
            }
            None => w2[at] = 0,
        }
    }
}

// The points between the cells at the first k places, from a lower to a higher place, are stored.
pub fn gather_points(w1: &[u64], w2: &mut [u64], k: usize)
    requires { (w : Points) × (cs : List ℕ) × PlacesThere w cs k w1.now w2.old }
    ensures { (w : Points) (cs : List ℕ) → PlacesThere w cs k w1.now w2.old
        → PointsIn w cs k w2.old w2.new }
{
    for i in 0..k.saturating_sub(1) {
        gather_row(w1, w2, k, i);
    }
}
