// Inner: where the words of steps are to stand.
ghost use Rattle.std.specs.Prelude.{◌+◌, ◌≤◌};
ghost use Rattle.buffers.specs.Map.{trail_room};

// Room for the words of at most `most` steps: on the trail from place `trail` on, among the names from place `names`.
#[derive(Clone, Copy)]
pub struct Room {
    pub trail: usize,
    pub names: usize,
    pub most: usize,
    pub ghost on_trail: { trail + most ≤ trail_room },
    pub ghost in_names: { names + most ≤ 1024 },
}
