// Inner functions of pair: see specs/Tail.
ghost use Rattle.std.specs.Prelude.{◌∷◌, [], ◌++◌};
ghost use Rattle.buffers.specs.Buffers.{lent};
ghost use Rattle.checks.specs.Refusals.{too_few_words};
ghost use Rattle.checks.specs.Calls.{answered, two, call_rows};
ghost use Rattle.checks.specs.Answering.{Does};
ghost use Rattle.lifting.specs.Calls.{pair_rows, pairing_file, pairing_origins};
ghost use Rattle.lifting.specs.Tail.{TailThere, Tails};

use crate::ends;
use checks::Refusal;
use solving;
use starting;
use starting::Started;

// Refusal 11; else the solution of what the steps left is brought back over the trail and written.
fn pair_tail(
    at: Started,
    w1: &mut [u64],
    w2: &mut [u64],
    out: &mut [u8],
    origins: &mut [u8],
) -> Result<(usize, usize), Refusal>
    requires { TailThere at.n at.slots at.trail at.steps w1.old w2.old }
    ensures { Tails at.n at.slots at.trail at.steps w1.old w2.old (out.old, out.new)
        (origins.old, origins.new) (answered two result) }
{
    solving::solve_left(w1, w2, at.slots, at.n).ok_or(Refusal::Crowded)?;
    ends::bring_back(at, w1, w2, out, origins)
}

// Pair, which leaves anything in the work buffers.
pub fn pair_in(
    list: &[u8],
    w1: &mut [u64],
    w2: &mut [u64],
    out: &mut [u8],
    origins: &mut [u8],
) -> Result<(usize, usize), Refusal>
    ensures { Does (call_rows (too_few_words (lent w1.old w2.old)) list.now ++ pair_rows list.now)
        ((pairing_file list.now, out.old, out.new)
        ∷ (pairing_origins list.now, origins.old, origins.new) ∷ []) (answered two result) }
{
    let at = starting::start_reduce(list, w1, w2)?;
    pair_tail(at, w1, w2, out, origins)
}
