// Weighing a pairing of a store list: the call weigh.
#![tactic(auto)]

mod parts;

ghost use Rattle.std.specs.Prelude.{◌≡◌};
ghost use Rattle.buffers.specs.Buffers.{lent, Cleared};
ghost use Rattle.checks.specs.Calls.{answered, one};
ghost use Rattle.weighing.specs.Weigh as specs;

use checks::Refusal;

// Weighs a pairing of the list: its points. Every word of the work buffers is zero afterwards, whatever their lengths.
pub fn weigh(
    list: &[u8],
    pairing: &[u8],
    work_a: &mut [u64],
    work_b: &mut [u64],
) -> Result<u64, Refusal>
    ensures answer { answered one result ≡ specs.weighing list.now pairing.now
        (lent work_a.old work_b.old) }
    ensures cleared { Cleared work_a.old work_a.new
        × Cleared work_b.old work_b.new }
{
    let r = parts::weigh_in(list, pairing, work_a, work_b);
    buffers::clear_both(work_a, work_b);
    r
}
