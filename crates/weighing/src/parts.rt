// Inner functions of weighing.
ghost use Rattle.std.specs.Prelude.{◌≡◌};
ghost use Rattle.buffers.specs.Buffers.{lent};
ghost use Rattle.cellfile.specs.Files.{entries_all, pairs_of};
ghost use Rattle.checks.specs.Calls.{answered, one};
ghost use Rattle.weighing.specs.Weigh as specs;
ghost use Rattle.weighing.specs.Merging.{merged};

use cellfile::decode::PairEntry;
use cellfile::records::{Entries, Records};
use checks::{Match, Refusal};

// The points of the pairs, or 10 where one is not an entry. Both files ascend, so each is passed once.
fn matched(entries: &Entries, pairs: &Records<'_, PairEntry>) -> Result<u64, Refusal>
    ensures { result ≡ merged (entries_all entries.now.file.now) (pairs_of pairs.now.file.now) 0 }
{
    let mut sum: u64 = 0;
    let mut from = 0;
    for j in 0..pairs.count {
        let p = pairs.get(j);
        let Some(Match { points, next }) = checks::seek(entries, from, p.a, p.b) else {
            return Err(Refusal::NoPairing);
        };
        sum += points;
        from = next;
    }
    Ok(sum)
}

// Weighing, which leaves anything in the second work buffer.
pub fn weigh_in(list: &[u8], pairing: &[u8], w1: &[u64], w2: &mut [u64]) -> Result<u64, Refusal>
    ensures { answered one result ≡ specs.weighing list.now pairing.now (lent w1.now w2.old) }
{
    let list = checks::check_call(list, w1, w2)?;
    let pairs = checks::check_pairing(pairing, list.entries.n)?;
    if partners::enter_pairs(&pairs, w2) {
        return Err(Refusal::NoPairing);
    }
    matched(&list.entries, &pairs)
}
