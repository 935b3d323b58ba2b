// Inner: changes the working graph.
ghost use Rattle.std.specs.Prelude.{◌≡◌, ◌∷◌, [], ◌+◌, ◌-◌, ◌<◌, ◌≤◌, get_or, set};
ghost use Rattle.matching.specs.Graph.{put, partners};
ghost use Rattle.matching.specs.Steps.{leafed};
ghost use Rattle.slots.specs.Slots.{low_of, high_of, Joins, Aside, Beyond, less_all, live};
ghost use Rattle.slots.specs.Working.{graph_in, SameBuffers, Changes};

use crate::graph::WorkingGraph;
use crate::words;
use buffers::map;

impl WorkingGraph<'_> {
    // The next slot gets the pair a, b.
    pub fn append(&mut self, a: usize, b: usize, w: u64)
        requires { (self.old.slots < 4096) × (0 < w) × (a < b) × (b < 1024) × (graph_in self.old a b ≡ 0) }
        ensures { Changes (self.old.slots + 1) (put a b w (graph_in self.old)) self.old self.new
            × Beyond self.old.slots self.old.w1.now self.new.w1.now }
    {
        let WorkingGraph { w1, w2, slots } = self;
        let e = *slots;
        let x = words::cell_word(a, b, w2[map::LASTS + a], w2[map::LASTS + b]);
        words::set_slot(w1, e, w, x);
        words::set_lasts(w2, e, a, b);
        words::add_keys(w2, e, a, b);
        *slots = e + 1;
    }

    // The pair of slot i goes.
    pub fn kill(&mut self, i: usize)
        requires { (i < self.old.slots) × (0 < get_or self.old.w1.now i 0) }
        ensures { Changes self.old.slots
            (put (low_of self.old.w1.now i) (high_of self.old.w1.now i) 0 (graph_in self.old)) self.old self.new
            × (self.new.w1.now ≡ set self.old.w1.now i 0) }
    {
        let cells = self.cells(i);
        let WorkingGraph { w1, w2, slots: _ } = self;
        w1[i] = 0;
        words::take_keys(w2, i, cells.low, cells.high);
    }

    // The pair of slot i loses p.
    fn lessen(&mut self, i: usize, p: u64)
        requires { i < self.old.slots }
        ensures { (self.new.slots ≡ self.old.slots) × Aside self.old.w2.now self.new.w2.now
            × SameBuffers self.old self.new
            × (self.new.w1.now ≡ set self.old.w1.now i (get_or self.old.w1.now i 0 - p)) }
    {
        let w = self.w1[i];
        if w > p {
            self.w1[i] = w - p;
        } else if w > 0 {
            self.kill(i);
        }
    }

    // Every pair at u loses p.
    pub fn lessen_all(&mut self, u: usize, p: u64)
        requires { u < 1024 }
        ensures { Changes self.old.slots (less_all u p (graph_in self.old)) self.old self.new }
    {
        let mut next = self.last_slot(u);
        while let Some(i) = next {
            self.lessen(i, p);
            next = self.slot_before(u, i);
        }
    }

    // The leaf step at a cell v whose only pair is slot i, with the partner u: the points carried.
    pub fn leaf(&mut self, v: usize, u: usize, i: usize) -> u64
        requires { Joins self.old.slots self.old.w1.now i u v × (u < 1024)
            × (partners 1024 (graph_in self.old) v ≡ u ∷ []) }
        ensures { (result ≡ graph_in self.old u v)
            × Changes self.old.slots (leafed (graph_in self.old) u v) self.old self.new }
    {
        let p = self.w1[i];
        self.kill(i);
        self.lessen_all(u, p);
        p
    }

    // The graph is empty, in no slots.
    fn clear(&mut self)
        ensures { (self.new.slots ≡ 0) × (self.new.w1.now ≡ self.old.w1.now) × Aside self.old.w2.now self.new.w2.now
            × SameBuffers self.old self.new }
    {
        let WorkingGraph { w1: _, w2, slots } = self;
        w2[map::SUMS..map::NAMES].fill(0);
        *slots = 0;
    }

    // Gone slots are dropped.
    pub fn pack(&mut self)
        ensures { Changes (live self.old.slots self.old.w1.now) (graph_in self.old) self.old self.new
            × (self.new.slots ≤ self.old.slots) }
    {
        let e = self.slots;
        self.clear();
        for i in 0..e {
            let w = self.w1[i];
            if w > 0 {
                let cells = self.cells(i);
                self.append(cells.low, cells.high, w);
            }
        }
    }
}
