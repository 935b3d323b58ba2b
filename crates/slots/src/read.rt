// Inner: reads the working graph.
ghost use Rattle.std.specs.Prelude.{◌≡◌, true, ◌/◌, ◌%◌, ◌<◌, length};
ghost use Rattle.matching.specs.Graph.{partners};
ghost use Rattle.matching.specs.Pairs.{touches};
ghost use Rattle.slots.specs.Slots.{low_of, high_of, name_of, Joins};
ghost use Rattle.slots.specs.Found.{FindSlot, Next, Only, LastSlot, SlotOf};
ghost use Rattle.slots.specs.Working.{graph_in};

use crate::graph::WorkingGraph;
use crate::words;
use buffers::map;

// A cell with the slot of its pair.
#[derive(Clone, Copy)]
pub struct Other {
    pub partner: usize,
    pub slot: usize,
}

// The two cells of a slot.
#[derive(Clone, Copy)]
pub struct Cells {
    pub low: usize,
    pub high: usize,
}

// The cell and the slot of a key.
fn other_in(k: u64) -> Other
    ensures { (result.partner ≡ k / 16777216 % 4194304) × (result.slot ≡ k % 16777216) }
{
    Other {
        partner: (k / words::KEY_PARTNER % words::PARTNERS) as usize,
        slot: (k % words::KEY_PARTNER) as usize,
    }
}

impl WorkingGraph<'_> {
    // The cells of slot i.
    #[inline]
    pub fn cells(&self, i: usize) -> Cells
        requires { i < 4096 }
        ensures { (result.low ≡ low_of self.now.w1.now i) × (result.high ≡ high_of self.now.w1.now i) }
    {
        let x = self.w1[map::CELL_WORDS + i];
        Cells {
            low: (x % map::CELL_FIELD) as usize,
            high: (x / map::CELL_FIELD % map::CELL_FIELD) as usize,
        }
    }

    // The number of pairs that c has.
    #[inline]
    pub fn degree(&self, c: usize) -> u64
        requires { c < 1024 }
        ensures { result ≡ length (partners 1024 (graph_in self.now) c) }
    {
        self.w2[map::SUMS + c] / words::KEY_ONE
    }

    // The only partner of a cell of degree one, with its slot.
    #[inline]
    pub fn only(&self, c: usize) -> Other
        requires { (c < 1024) × (length (partners 1024 (graph_in self.now) c) ≡ 1) }
        ensures { Only self.now.slots self.now.w1.now c result }
    {
        other_in(self.w2[map::SUMS + c])
    }

    // The other pair of a cell of degree two, of which slot i joins it to prev.
    #[inline]
    pub fn step_on(&self, c: usize, prev: usize, i: usize) -> Other
        requires { (c < 1024) × Joins self.now.slots self.now.w1.now i prev c
            × (length (partners 1024 (graph_in self.now) c) ≡ 2) }
        ensures { Next self.now.slots self.now.w1.now c prev result }
    {
        other_in(self.w2[map::SUMS + c] - words::key_of(prev, i))
    }

    // The last slot of c.
    #[inline]
    pub fn last_slot(&self, c: usize) -> Option<usize>
        requires { c < 1024 }
        ensures { LastSlot self.now.w1.now c self.now.slots (name_of result) }
    {
        words::slot_of(self.w2[map::LASTS + c])
    }

    // The last slot of c before slot i, which has c: a slot of a cell leads to the one before it.
    #[inline]
    pub fn slot_before(&self, c: usize, i: usize) -> Option<usize>
        requires { (i < self.now.slots) × (touches c (low_of self.now.w1.now i) (high_of self.now.w1.now i) ≡ true) }
        ensures { LastSlot self.now.w1.now c i (name_of result) }
    {
        words::link(self.w1, i, c)
    }

    // The partner of c in slot i.
    #[inline]
    pub fn partner(&self, c: usize, i: usize) -> usize
        requires { SlotOf self.now.slots self.now.w1.now c i }
        ensures { Joins self.now.slots self.now.w1.now i c result × (result < 1024) }
    {
        let cells = self.cells(i);
        cells.low + cells.high - c
    }

    // The live slot that joins u and v.
    pub fn find(&self, u: usize, v: usize) -> Option<usize>
        requires { (u < 1024) × (v < 1024) }
        ensures { FindSlot self.now.slots self.now.w1.now u v (name_of result) }
    {
        let mut next = self.last_slot(u);
        while let Some(i) = next {
            let cells = self.cells(i);
            if self.w1[i] != 0 && cells.low + cells.high == u + v {
                return Some(i);
            }
            next = self.slot_before(u, i);
        }
        None
    }
}
