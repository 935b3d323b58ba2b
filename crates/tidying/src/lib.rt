// The store list from the raw list that the rig writes: the call tidy.
#![tactic(auto)]

mod parts;

ghost use Rattle.std.specs.Prelude.{◌≡◌, length};
ghost use Rattle.buffers.specs.Buffers.{lent, Cleared};
ghost use Rattle.cellfile.specs.Answers.{written};
ghost use Rattle.checks.specs.Calls.{answered, one};
ghost use Rattle.tidying.specs.Calls.{tidy_file};
ghost use Rattle.tidying.specs.Calls as specs;

use checks::Refusal;

// Writes the store list of the raw list: its length. Every word of the work buffers is zero afterwards, whatever their
// lengths.
pub fn tidy(
    raw: &[u8],
    work_a: &mut [u64],
    work_b: &mut [u64],
    store: &mut [u8],
) -> Result<usize, Refusal>
    ensures answer { answered one result ≡ specs.tidying raw.now
        (lent work_a.old work_b.old) (length store.old) }
    ensures output { store.new
        ≡ written (answered one result).0 (tidy_file raw.now) store.old }
    ensures cleared { Cleared work_a.old work_a.new
        × Cleared work_b.old work_b.new }
{
    let r = parts::tidy_in(raw, work_a, work_b, store);
    buffers::clear_both(work_a, work_b);
    r
}
