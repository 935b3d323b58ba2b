// Inner, for every call: the work buffers lent to it. `map` says what stands where in them.
#![tactic(auto)]

pub mod map;

ghost use Rattle.buffers.specs.Buffers.{Cleared};

// Every word is zero afterwards, whatever the length.
pub fn clear(work: &mut [u64])
    ensures { Cleared work.old work.new }
{
    work.fill(0);
}

// Every word of both buffers that a call is lent is zero afterwards.
pub fn clear_both(work_a: &mut [u64], work_b: &mut [u64])
    ensures { Cleared work_a.old work_a.new
        × Cleared work_b.old work_b.new }
{
    clear(work_a);
    clear(work_b);
}
