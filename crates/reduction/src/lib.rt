// Replaying a slip on a list, and reducing a list: the calls replay and reduce.
#![tactic(auto)]

mod calls;

ghost use Rattle.std.specs.Prelude.{◌≡◌, length};
ghost use Rattle.buffers.specs.Buffers.{lent, Cleared};
ghost use Rattle.reduction.specs.Calls.{replaying, reducing, replay_short, slip_file, short_file};
ghost use Rattle.checks.specs.Calls.{answered, one, two};
ghost use Rattle.cellfile.specs.Answers.{written};
ghost use Rattle.starting.specs.Steps.{reduce_steps};

use buffers;
use checks::Refusal;

// Replays the slip on the list and writes the short list: its length. Every word of the work buffers is zero
// afterwards.
pub fn replay(
    list: &[u8],
    slip: &[u8],
    work_a: &mut [u64],
    work_b: &mut [u64],
    short: &mut [u8],
) -> Result<usize, Refusal>
    ensures answer { answered one result ≡ replaying list.now slip.now
        (lent work_a.old work_b.old) (length short.old) }
    ensures output { short.new ≡ written (answered one result).0
        (replay_short list.now slip.now) short.old }
    ensures cleared { Cleared work_a.old work_a.new
        × Cleared work_b.old work_b.new }
{
    let r = calls::replay_in(list, slip, work_a, work_b, short);
    buffers::clear_both(work_a, work_b);
    r
}

// Reduces the list and writes the slip and the short list: their lengths. Every word of the work buffers is zero
// afterwards.
pub fn reduce(
    list: &[u8],
    work_a: &mut [u64],
    work_b: &mut [u64],
    slip: &mut [u8],
    short: &mut [u8],
) -> Result<(usize, usize), Refusal>
    ensures answer { answered two result ≡ reducing list.now
        (lent work_a.old work_b.old)
        (length slip.old) (length short.old) }
    ensures outputs { (slip.new ≡ written (answered two result).0
        (slip_file list.now (reduce_steps list.now)) slip.old)
        × (short.new ≡ written (answered two result).0
        (short_file list.now (reduce_steps list.now)) short.old) }
    ensures cleared { Cleared work_a.old work_a.new
        × Cleared work_b.old work_b.new }
{
    let r = calls::reduce_in(list, work_a, work_b, slip, short);
    buffers::clear_both(work_a, work_b);
    r
}
