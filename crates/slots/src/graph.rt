// Inner: the working graph in its two buffers.
ghost use Rattle.std.specs.Prelude.{◌⊎◌, ◌<◌, ◌≤◌, length};
ghost use Rattle.buffers.specs.Map.{trail_room, at_names};
ghost use Rattle.slots.specs.Slots.{Holds};

// The working graph, in two lent buffers: its slots stand in the first one, and in part of the second. The other words
// of the second buffer are not the graph's.
#[derive(Drop)]
pub struct WorkingGraph<'a> {
    pub w1: &'a mut [u64],
    pub w2: &'a mut [u64],
    // How many slots are in use.
    pub slots: usize,
    pub ghost holds: { Holds slots w1.now w2.now },
}

impl WorkingGraph<'_> {
    ghost use Rattle.slots.specs.Working.{WordSet};

    // A word of the second buffer that is not the graph's is x afterwards.
    #[inline]
    pub fn set_word(&mut self, place: usize, x: u64)
        requires { ((place < trail_room) ⊎ (at_names ≤ place)) × (place < length self.old.w2.now) }
        ensures { WordSet place x self.old self.new }
    {
        self.w2[place] = x;
    }
}
