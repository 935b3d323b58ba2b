// Inner functions of tidy: see specs/Words.
ghost use Rattle.std.specs.Prelude.{◌≡◌, ◌∷◌, [], map, ◌≤◌, ◌<◌, length, take};
ghost use Rattle.buffers.specs.Buffers.{lent};
ghost use Rattle.cellfile.specs.Files.{entries_all};
ghost use Rattle.cellfile.specs.Reads.{points_top};
ghost use Rattle.cellfile.specs.Words.{store_word};
ghost use Rattle.checks.specs.Refusals.{too_few_words};
ghost use Rattle.checks.specs.Calls.{answered, one};
ghost use Rattle.checks.specs.Answering.{Does};
ghost use Rattle.tidying.specs.Calls.{tidied, tidy_file, tidy_rows};
ghost use Rattle.tidying.specs.Words.{raw_word, RawThere};

use buffers::map::CELL_FIELD;
use cellfile::decode::Entry;
use cellfile::format::Kind;
use cellfile::records::Entries;
use cellfile::write;
use checks::Refusal;

// The word of an entry, its lower cell first.
fn entry_word(e: Entry) -> u64
    requires { (e.a < 1024) × (e.b < 1024) × (e.points < points_top) }
    ensures { result ≡ raw_word (e.a, e.b, e.points) }
{
    let low = e.a.min(e.b) as u64;
    let high = e.a.max(e.b) as u64;
    (low * CELL_FIELD + high) * sorting::KEY_UNIT + e.points
}

// The entries of a raw list as words.
fn load(entries: &Entries, w1: &mut [u64])
    requires { entries.now.m ≤ length w1.old }
    ensures { take entries.now.m w1.new ≡ map raw_word (entries_all entries.now.file.now) }
{
    for i in 0..entries.m {
        w1[i] = entry_word(entries.get(i));
    }
}

// The entries of the store list as words, of a raw list: their number.
fn order(entries: &Entries, w1: &mut [u64], w2: &mut [u64]) -> usize
    requires { RawThere entries.now.file.now w1.old w2.old }
    ensures { (result ≤ 4096) × (take result w1.new ≡ map store_word (tidied (entries_all entries.now.file.now))) }
{
    load(entries, w1);
    sorting::sort(&mut w1[..entries.m], w2)
}

// Refusal 12 and the store list, of a raw list that has passed 13.
fn write_tidied(
    entries: &Entries,
    w1: &mut [u64],
    w2: &mut [u64],
    store: &mut [u8],
) -> Result<usize, Refusal>
    requires { RawThere entries.now.file.now w1.old w2.old }
    ensures { Does [] ((tidy_file entries.now.file.now, store.old, store.new) ∷ []) (answered one result) }
{
    let k = order(entries, w1, w2);
    let size = Kind::StoreList.file_bytes(k);
    checks::check_room(store, size)?;
    write::write_words(Kind::StoreList, entries.n, &w1[..k], store);
    Ok(size)
}

// Tidy, which leaves anything in the work buffers.
pub fn tidy_in(
    raw: &[u8],
    w1: &mut [u64],
    w2: &mut [u64],
    store: &mut [u8],
) -> Result<usize, Refusal>
    ensures { Does (tidy_rows (too_few_words (lent w1.old w2.old)) raw.now)
        ((tidy_file raw.now, store.old, store.new) ∷ []) (answered one result) }
{
    checks::check_work(w1, w2)?;
    let entries = checks::check_raw(raw)?;
    write_tidied(&entries, w1, w2, store)
}
