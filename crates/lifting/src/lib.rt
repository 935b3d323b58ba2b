// Solving what a slip leaves, lifting a pairing through a slip, and pairing a list: the calls solve, lift and pair.
#![tactic(auto)]

mod calls;
mod ends;
mod pairing;

ghost use Rattle.std.specs.Prelude.{◌≡◌, length};
ghost use Rattle.buffers.specs.Buffers.{lent, Cleared};
ghost use Rattle.cellfile.specs.Answers.{written};
ghost use Rattle.checks.specs.Calls.{answered, one, two};
ghost use Rattle.lifting.specs.Calls.{solving, solve_file, lifting, lift_file, lift_origins};
ghost use Rattle.lifting.specs.Calls.{pairing as pairing_answer, pairing_file, pairing_origins};

use buffers;
use checks::Refusal;

// Solves what the slip leaves of the list and writes the pairing: its length. Every word of the work buffers is zero
// afterwards.
pub fn solve(
    list: &[u8],
    slip: &[u8],
    work_a: &mut [u64],
    work_b: &mut [u64],
    pairing: &mut [u8],
) -> Result<usize, Refusal>
    ensures answer { answered one result ≡ solving list.now slip.now
        (lent work_a.old work_b.old) (length pairing.old) }
    ensures output { pairing.new ≡ written (answered one result).0
        (solve_file list.now slip.now) pairing.old }
    ensures cleared { Cleared work_a.old work_a.new
        × Cleared work_b.old work_b.new }
{
    let r = calls::solve_in(list, slip, work_a, work_b, pairing);
    buffers::clear_both(work_a, work_b);
    r
}

// Lifts the pairing of what the slip leaves to the list, and tells where each pair came from: the lengths of both
// files. Every word of the work buffers is zero afterwards.
pub fn lift(
    list: &[u8],
    slip: &[u8],
    pairing: &[u8],
    work_a: &mut [u64],
    work_b: &mut [u64],
    lifted: &mut [u8],
    origins: &mut [u8],
) -> Result<(usize, usize), Refusal>
    ensures answer { answered two result ≡ lifting list.now slip.now pairing.now
        (lent work_a.old work_b.old) (length lifted.old)
        (length origins.old) }
    ensures outputs { (lifted.new ≡ written (answered two result).0
        (lift_file list.now slip.now pairing.now) lifted.old)
        × (origins.new ≡ written (answered two result).0
        (lift_origins list.now slip.now pairing.now) origins.old) }
    ensures cleared { Cleared work_a.old work_a.new
        × Cleared work_b.old work_b.new }
{
    let r = calls::lift_in(list, slip, pairing, work_a, work_b, lifted, origins);
    buffers::clear_both(work_a, work_b);
    r
}

// Reduces the list, solves what is left and lifts it: a heaviest pairing of the list, and where each pair came from:
// the lengths of both files. Every word of the work buffers is zero afterwards.
pub fn pair(
    list: &[u8],
    work_a: &mut [u64],
    work_b: &mut [u64],
    pairing: &mut [u8],
    origins: &mut [u8],
) -> Result<(usize, usize), Refusal>
    ensures answer { answered two result ≡ pairing_answer list.now
        (lent work_a.old work_b.old) (length pairing.old)
        (length origins.old) }
    ensures outputs { (pairing.new ≡ written (answered two result).0 (pairing_file list.now)
        pairing.old)
        × (origins.new ≡ written (answered two result).0 (pairing_origins list.now)
        origins.old) }
    ensures cleared { Cleared work_a.old work_a.new
        × Cleared work_b.old work_b.new }
{
    let r = pairing::pair_in(list, work_a, work_b, pairing, origins);
    buffers::clear_both(work_a, work_b);
    r
}
