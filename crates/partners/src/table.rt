// Inner: the table of partners in its buffer.
ghost use Rattle.std.specs.Prelude.{◌≤◌, length};

// The table of partners, in the second lent buffer: for each cell nothing, or its partner and where their pair came
// from. The other words of the buffer are not the table's.
#[derive(Drop)]
pub struct Table<'a> {
    pub words: &'a mut [u64],
    pub ghost room: { 8192 ≤ length words.now },
}
