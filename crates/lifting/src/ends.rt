// Inner: the end of a call, which writes its pairing, and beside a lifted one where its pairs came from. See
// specs/Ending.
ghost use Rattle.std.specs.Prelude.{◌≡◌, ◌∷◌, [], ◌≤◌, length};
ghost use Rattle.cellfile.specs.Files.{pairing as pairing_layout, origin_list, write_file};
ghost use Rattle.cellfile.specs.Words.{file_of};
ghost use Rattle.checks.specs.Calls.{answered, one, two};
ghost use Rattle.checks.specs.Answering.{Does};
ghost use Rattle.lifting.specs.Ending.{ReturnThere, Returns};

use buffers::map::ORIGIN_WORDS;
use cellfile::format::Kind;
use cellfile::write;
use checks;
use checks::Refusal;
use partners;
use partners::table::Table;
use starting::Started;
use undoing;

// Refusal 12 and the pairing of n cells whose pairs are these words.
pub fn write_pairs(n: usize, pairs: &[u64], out: &mut [u8]) -> Result<usize, Refusal>
    requires { (n ≤ 1024) × (length pairs.now ≤ 512) }
    ensures { Does [] ((write_file pairing_layout (file_of pairing_layout n [] pairs.now), out.old, out.new) ∷ [])
        (answered one result) }
{
    let size = Kind::Pairing.file_bytes(pairs.len());
    checks::check_room(out, size)?;
    write::write_words(Kind::Pairing, n, pairs, out);
    Ok(size)
}

// The same, and the origin list of as many records.
fn write_both(
    n: usize,
    pairs: &[u64],
    records: &[u64],
    out: &mut [u8],
    origins: &mut [u8],
) -> Result<(usize, usize), Refusal>
    requires { (n ≤ 1024) × (length pairs.now ≤ 512) × (length records.now ≡ length pairs.now) }
    ensures { Does []
        ((write_file pairing_layout (file_of pairing_layout n [] pairs.now), out.old, out.new)
        ∷ (write_file origin_list (file_of origin_list n [] records.now), origins.old, origins.new)
        ∷ []) (answered two result) }
{
    let size = Kind::Pairing.file_bytes(pairs.len());
    let origin_size = Kind::OriginList.file_bytes(records.len());
    checks::check_room(out, size)?;
    checks::check_room(origins, origin_size)?;
    write::write_words(Kind::Pairing, n, pairs, out);
    write::write_words(Kind::OriginList, n, records, origins);
    Ok((size, origin_size))
}

// Brings the pairing in the table back over the trail, and writes it and where its pairs came from; refusal 12.
pub fn bring_back(
    at: Started,
    w1: &mut [u64],
    w2: &mut [u64],
    out: &mut [u8],
    origins: &mut [u8],
) -> Result<(usize, usize), Refusal>
    requires { ReturnThere at.n at.trail at.steps w1.old w2.old }
    ensures { Returns at.n at.trail at.steps w1.old w2.old (out.old, out.new)
        (origins.old, origins.new) (answered two result) }
{
    let mut table = Table { words: w2 };
    undoing::lift_back(w1, &mut table, at.trail, at.steps);
    let r = partners::list_pairs(w1, &table, at.n);
    let words = &w1[..];
    write_both(
        at.n,
        &words[..r],
        &words[ORIGIN_WORDS..ORIGIN_WORDS + r],
        out,
        origins,
    )
}
