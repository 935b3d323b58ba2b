// Inner, for lifting: the way back through the steps on the trail, on the table of partners. See specs/Back, and
// specs/Unwinding for its parts.
#![tactic(auto)]

ghost use Rattle.std.specs.Prelude.{◌≡◌, cond, List, ◌++◌, ◌<◌, eqb};
ghost use Rattle.matching.specs.Pairs.{Pair};
ghost use Rattle.matching.specs.Steps.{leaf};
ghost use Rattle.matching.specs.Origin.{Origins, number_in};
ghost use Rattle.rows.specs.Row.{marked};
ghost use Rattle.trail.specs.Trail.{row_pairs};
ghost use Rattle.origins.specs.Stamps.{as_origin};
ghost use Rattle.partners.specs.Table.{joined, InTable, SameBuffer};
ghost use Rattle.undoing.specs.Back.{UndoThere, Undone, BackThere, Lifted};
ghost use Rattle.undoing.specs.Unwinding.{TableOf, words_at, PutThere};
ghost use Rattle.undoing.specs.Unwinding.{ChainFreed, RingFreed, UndoneTable, StepBack, RingBack, ChainBack};

use cellfile::format::Rule;
use finding::Step;
use origins::Origin;
use partners::table::Table;
use rows::Row;
use trail::words;

// The pair x, y comes into the table, with where it is from, where the mark is 1.
fn join_marked(table: &mut Table<'_>, mark: u64, x: usize, y: usize, origin: Origin)
    requires { (x < 1024) × (y < 1024) × (number_in (as_origin origin) < 2048) }
    ensures joined { table.new.words.now
        ≡ cond (eqb mark 1) (joined x y (as_origin origin) table.old.words.now) table.old.words.now }
    ensures same { SameBuffer table.old table.new }
{
    if mark == 1 {
        table.join(x, y, origin);
    }
}

// The marked pairs of the row whose words stand on the trail from place a on, to its end v, come into the table, the
// last first, from this origin.
fn put_marked(marks: &[u64], table: &mut Table<'_>, a: usize, v: usize, origin: Origin)
    requires { PutThere a v (as_origin origin) marks.now table.old.words.now }
    ensures put { (p : PutThere a v (as_origin origin) marks.now table.old.words.now)
        → TableOf table.old.words.now table.new.words.now p.from
        (marked marks.now (row_pairs (words_at a marks.now table.old.words.now) v) ++ p.pairs) }
    ensures same { SameBuffer table.old table.new }
{
    let mut to = v;
    for j in (0..marks.len()).rev() {
        let from = words::cell_of(table.words[a + j]);
        join_marked(table, marks[j], from, to, origin);
        to = from;
    }
}

// Which ends of a chain its part leaves free.
#[derive(Clone, Copy)]
struct Ends {
    less_u: bool,
    less_v: bool,
}

// The pair that a chain step put for its row goes out of the table, where it is held.
fn free_chain(table: &mut Table<'_>, u: usize, v: usize, z: usize, more: bool) -> Ends
    requires { (u < 1024) × (v < 1024) × (z < 1024) }
    ensures freed { (o : Origins) (m : List Pair) → InTable table.old.words.now o m
        → ChainFreed u v z more o m table.old.words.now table.new.words.now result }
    ensures same { SameBuffer table.old table.new }
{
    if table.has(u, z) {
        table.part(u, z);
        return Ends {
            less_u: false,
            less_v: true,
        };
    }
    if table.has(v, z) {
        table.part(v, z);
        return Ends {
            less_u: true,
            less_v: false,
        };
    }
    if !more && table.has(u, v) {
        table.part(u, v);
        return Ends {
            less_u: false,
            less_v: false,
        };
    }
    Ends {
        less_u: true,
        less_v: true,
    }
}

// The pair that a ring step put for its row goes out of the table, where it is held; else the part leaves u free.
fn free_ring(table: &mut Table<'_>, u: usize, z: usize) -> bool
    requires { (u < 1024) × (z < 1024) }
    ensures freed { (o : Origins) (m : List Pair) → InTable table.old.words.now o m
        → RingFreed u z o m table.old.words.now table.new.words.now result }
    ensures same { SameBuffer table.old table.new }
{
    if table.has(u, z) {
        table.part(u, z);
        return false;
    }
    true
}

// The way back of a leaf. The pair that it puts in is from that origin.
fn undo_leaf(table: &mut Table<'_>, u: usize, v: usize, origin: Origin)
    requires { StepBack (as_origin origin) (leaf u v) table.old.words.now }
    ensures back { (b : StepBack (as_origin origin) (leaf u v) table.old.words.now)
        → UndoneTable b table.new.words.now }
    ensures same { SameBuffer table.old table.new }
{
    if table.is_free(u) {
        table.join(u, v, origin);
    }
}

// The way back of a ring whose words stand on the trail from place a on, as many as there is room for marks. The pairs
// that it puts in are from that origin.
fn undo_ring(marks: &mut [u64], table: &mut Table<'_>, a: usize, u: usize, z: usize, origin: Origin)
    requires { RingBack a u z (as_origin origin) marks.old table.old.words.now }
    ensures back { (b : RingBack a u z (as_origin origin) marks.old table.old.words.now)
        → UndoneTable b.back table.new.words.now }
    ensures same { SameBuffer table.old table.new }
{
    let less_u = free_ring(table, u, z);
    let end = a + marks.len();
    marks.fill(0);
    let row = Row {
        words: table.trail(a, end),
    };
    row.mark_ring(less_u, marks);
    put_marked(marks, table, a, u, origin);
}

// The way back of a chain, likewise.
fn undo_chain(
    marks: &mut [u64],
    table: &mut Table<'_>,
    a: usize,
    u: usize,
    v: usize,
    z: usize,
    more: bool,
    origin: Origin,
)
    requires { ChainBack a u v z more (as_origin origin) marks.old table.old.words.now }
    ensures back { (b : ChainBack a u v z more (as_origin origin) marks.old table.old.words.now)
        → UndoneTable b.back table.new.words.now }
    ensures same { SameBuffer table.old table.new }
{
    let ends = free_chain(table, u, v, z, more);
    let end = a + marks.len();
    marks.fill(0);
    let row = Row {
        words: table.trail(a, end),
    };
    row.mark_chain(ends.less_u, ends.less_v, marks);
    put_marked(marks, table, a, v, origin);
}

// Undoes the last step on the trail of t words, which has that number: the words of the trail that are left.
fn undo_step(w1: &mut [u64], table: &mut Table<'_>, t: usize, number: u64) -> usize
    requires { UndoThere t number w1.old table.old.words.now }
    ensures back { (u : UndoThere t number w1.old table.old.words.now)
        → Undone t number w1.old table.old.words.now table.new.words.now result u }
    ensures same { SameBuffer table.old table.new }
{
    let word = table.words[t - 1];
    let k = words::pairs_of(word);
    let a = t - 1 - k;
    let Some(step) = words::step_of(word) else {
        return a;
    };
    match step {
        Step::Leaf { v, u } => {
            let origin = Origin::Step {
                number,
                rule: Rule::Leaf,
            };
            undo_leaf(table, u, v, origin);
            a
        }
        Step::Ring { u, z } => {
            let origin = Origin::Step {
                number,
                rule: Rule::Ring,
            };
            undo_ring(&mut w1[..k], table, a, u, z, origin);
            a
        }
        Step::Chain { u, v, z } => {
            let origin = Origin::Step {
                number,
                rule: Rule::Chain,
            };
            let more = words::more_of(word);
            undo_chain(&mut w1[..k], table, a, u, v, z, more, origin);
            a
        }
    }
}

// The way back through all the steps on the trail of t words, last step first.
pub fn lift_back(w1: &mut [u64], table: &mut Table<'_>, t: usize, steps: usize)
    requires { BackThere t steps w1.old table.old.words.now }
    ensures back { (b : BackThere t steps w1.old table.old.words.now)
        → Lifted t steps w1.old table.old.words.now table.new.words.now b }
    ensures same { SameBuffer table.old table.new }
{
    let mut left = t;
    for number in (1..=steps).rev() {
        left = undo_step(w1, table, left, number as u64);
    }
}
