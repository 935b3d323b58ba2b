// Inner, for the calls: the refusals; checks the form of a list (refusals 2 to 6), a slip (7), a pairing (9) and a raw
// list (13), and hands on what passes; and looks up pairs in a list.
#![tactic(auto)]

mod lists;

ghost use Rattle.std.specs.Prelude.{◌≡◌, ◌∷◌, [], ◌≤◌, ◌<◌, ℕ, true, false, length};
ghost use Rattle.std.specs.Prelude.{OnOk, IfOk, MatchOption, MatchResult};
ghost use Rattle.matching.specs.Lists.{any};
ghost use Rattle.cellfile.specs.Files.{steps_of, pairing as pairing_layout, read_entries};
ghost use Rattle.cellfile.specs.Kinds.{layout_of};
ghost use Rattle.checks.specs.Refusals.{first, too_few_words, lists as list_kinds, list_rows, misheaded};
ghost use Rattle.checks.specs.Refusals.{is_no_rule, bad_slip, bad_pairing, stray_pair, loose_pair, is_bad_raw};
ghost use Rattle.buffers.specs.Buffers.{lent};
ghost use Rattle.checks.specs.Calls.{number, refusal_in, call_rows};
ghost use Rattle.checks.specs.Loops.{head_rows, entry_rows, has_bad_pairs, some_from};
ghost use Rattle.checks.specs.Merging.{Seeks};

use buffers::map::WORDS;
use cellfile::decode::{self, PairEntry, SlipStep};
use cellfile::format::{HEADER_BYTES, Kind};
use cellfile::records::{self, Entries, Record, Records};
pub use lists::StoreList;

// Why a call refuses, by the numbers that it answers.
#[derive(Clone, Copy, PartialEq, Eq)]
pub enum Refusal {
    FewWords = 1,
    NoList = 2,
    TooLarge = 3,
    WrongLength = 4,
    StrayEntry = 5,
    Unordered = 6,
    BadSlip = 7,
    Disallowed = 8,
    BadPairing = 9,
    NoPairing = 10,
    Crowded = 11,
    ShortOutput = 12,
    BadRaw = 13,
}

impl From<Refusal> for u32 {
    ghost from_gives = { λ refusal k. k ≡ number refusal };

    fn from(refusal: Refusal) -> u32 {
        refusal as u32
    }
}

const MOST_CELLS: usize = 1024;

const MOST_ENTRIES: usize = 4096;

// Refusals 2 to 4, for lists of one kind.
fn check_head(list: &[u8], kind: Kind) -> Result<Entries<'_>, Refusal>
    ensures refusal { refusal_in result ≡ first (head_rows ((layout_of kind).kind ∷ []) list.now) }
    ensures list { IfOk result (λ entries. entries.file.now ≡ list.now) }
{
    if list.len() < HEADER_BYTES {
        return Err(Refusal::NoList);
    }
    let h = decode::header_at(list);
    if h.kind != u64::from(kind) || h.zeros != 0 {
        return Err(Refusal::NoList);
    }
    if MOST_CELLS < h.n || MOST_ENTRIES < h.m {
        return Err(Refusal::TooLarge);
    }
    if list.len() != records::list_bytes(list, h.m) {
        return Err(Refusal::WrongLength);
    }
    Ok(Entries::new(list, h.n, h.m))
}

// Whether a cell is not below n, or a not below b.
fn is_stray(n: usize, a: usize, b: usize) -> bool
    ensures { result ≡ stray_pair n a b }
{
    n <= b || b <= a
}

// Refusals 5 and 6, in one walk over the entries.
fn check_entries(entries: &Entries) -> Result<(), Refusal>
    ensures { refusal_in result ≡ first (entry_rows entries.now.file.now) }
{
    let mut ordered = true;
    let mut low: usize = 0;
    for i in 0..entries.m {
        let e = entries.get(i);
        if is_stray(entries.n, e.a, e.b) {
            return Err(Refusal::StrayEntry);
        }
        let key = e.a * 1024 + e.b;
        if key < low {
            ordered = false;
        }
        low = key + 1;
    }
    if !ordered {
        return Err(Refusal::Unordered);
    }
    Ok(())
}

// Refusals 2 to 6.
pub fn check_list(list: &[u8]) -> Result<StoreList<'_>, Refusal>
    ensures refusal { refusal_in result ≡ first (list_rows list_kinds list.now) }
    ensures list { IfOk result (λ l. l.entries.file.now ≡ list.now) }
{
    let entries = check_head(list, Kind::StoreList)?;
    check_entries(&entries)?;
    Ok(StoreList { entries })
}

// Whether it is one cell twice, or a cell is not below n.
fn is_loose(n: usize, a: usize, b: usize) -> bool
    ensures { result ≡ loose_pair n a b }
{
    a == b || n <= a || n <= b
}

// Whether some entry of a raw list has such cells.
fn has_loose(entries: &Entries) -> bool
    ensures { result ≡ some_from (loose_pair entries.now.n) entries.now.file.now 0 }
{
    (0..entries.m).any(|i| {
        let e = entries.get(i);
        is_loose(entries.n, e.a, e.b)
    })
}

// Refusal 13.
pub fn check_raw(raw: &[u8]) -> Result<Entries<'_>, Refusal>
    ensures refusal { refusal_in result ≡ first ((13, is_bad_raw raw.now) ∷ []) }
    ensures list { IfOk result (λ entries. entries.file.now ≡ raw.now) }
{
    let entries = check_head(raw, Kind::RawList).map_err(|_| Refusal::BadRaw)?;
    if has_loose(&entries) {
        return Err(Refusal::BadRaw);
    }
    Ok(entries)
}

// Refusal 1.
pub fn check_work(work_a: &[u64], work_b: &[u64]) -> Result<(), Refusal>
    ensures refusal { refusal_in result ≡ first ((1, too_few_words (lent work_a.now work_b.now)) ∷ []) }
    ensures enough { OnOk result ((8192 ≤ length work_a.now) × (8192 ≤ length work_b.now)) }
{
    if work_a.len() < WORDS || work_b.len() < WORDS {
        return Err(Refusal::FewWords);
    }
    Ok(())
}

// Refusals 1 to 6.
pub fn check_call<'a>(
    list: &'a [u8],
    work_a: &[u64],
    work_b: &[u64],
) -> Result<StoreList<'a>, Refusal>
    ensures refusal { refusal_in result
        ≡ first (call_rows (too_few_words (lent work_a.now work_b.now)) list.now) }
    ensures enough { OnOk result ((8192 ≤ length work_a.now) × (8192 ≤ length work_b.now)) }
    ensures list { IfOk result (λ l. l.entries.file.now ≡ list.now) }
{
    check_work(work_a, work_b)?;
    check_list(list)
}

// Refusal 12 of one output, for a file of that size.
pub fn check_room(out: &[u8], size: usize) -> Result<(), Refusal>
    ensures { MatchResult result (λ _. size ≤ length out.now)
        (λ refusal. (refusal ≡ Refusal.ShortOutput) × (length out.now < size)) }
{
    if out.len() < size {
        return Err(Refusal::ShortOutput);
    }
    Ok(())
}

// What refusals 7 and 9 share: the records of a file whose header and length are right.
fn headed<R: Record>(file: &[u8], n: usize) -> Option<Records<'_, R>>
    ensures { MatchOption result (misheaded (layout_of R.KIND) n file.now ≡ true)
        (λ records. (misheaded (layout_of R.KIND) n file.now ≡ false) × (records.file.now ≡ file.now)) }
{
    if file.len() < HEADER_BYTES {
        return None;
    }
    let h = decode::header_at(file);
    if h.kind != u64::from(R::KIND) || h.n != n || h.zeros != 0 {
        return None;
    }
    if file.len() != R::KIND.file_bytes(h.m) {
        return None;
    }
    Some(Records::new(file, h.m))
}

// Whether the rule is below `low` or above `high`.
fn is_outside(rule: u64, low: u64, high: u64) -> bool
    ensures { result ≡ is_no_rule (low, high) rule }
{
    rule < low || high < rule
}

// Whether some step has such a rule.
fn has_no_rule(steps: &Records<'_, SlipStep>, low: u64, high: u64) -> bool
    ensures { result ≡ any (λ (t : ℕ × ℕ). is_no_rule (low, high) t.0) (steps_of steps.now.file.now) }
{
    (0..steps.count).any(|i| is_outside(steps.get(i).rule, low, high))
}

// Whether some entry has a set zero bit or not a < b < n, or a does not ascend.
fn has_bad_pair(pairs: &Records<'_, PairEntry>, n: usize) -> bool
    ensures { result ≡ has_bad_pairs n 0 (read_entries pairing_layout pairs.now.file.now) }
{
    let mut low: usize = 0;
    for i in 0..pairs.count {
        let PairEntry { a, b, zeros } = pairs.get(i);
        if is_stray(n, a, b) || zeros != 0 || a < low {
            return true;
        }
        low = a + 1;
    }
    false
}

// Refusal 7, of a slip for a list of n cells, whose rules are from `low` to `high`: numbers, as a slip may say any.
pub fn check_slip(
    slip: &[u8],
    n: usize,
    low: u64,
    high: u64,
) -> Result<Records<'_, SlipStep>, Refusal>
    ensures refusal { refusal_in result ≡ first ((7, bad_slip (low, high) n slip.now) ∷ []) }
    ensures slip { IfOk result (λ steps. steps.file.now ≡ slip.now) }
{
    let steps = headed(slip, n).ok_or(Refusal::BadSlip)?;
    if has_no_rule(&steps, low, high) {
        return Err(Refusal::BadSlip);
    }
    Ok(steps)
}

// Refusal 9, of a pairing for a list of n cells.
pub fn check_pairing(pairing: &[u8], n: usize) -> Result<Records<'_, PairEntry>, Refusal>
    ensures refusal { refusal_in result ≡ first ((9, bad_pairing n pairing.now) ∷ []) }
    ensures pairing { IfOk result (λ pairs. pairs.file.now ≡ pairing.now) }
{
    let pairs = headed(pairing, n).ok_or(Refusal::BadPairing)?;
    if has_bad_pair(&pairs, n) {
        return Err(Refusal::BadPairing);
    }
    Ok(pairs)
}

// The points of an entry that was looked for, and the place behind it.
#[derive(Clone, Copy)]
pub struct Match {
    pub points: u64,
    pub next: usize,
}

// Looks for the pair a, b from place i on. The entries ascend, so the search ends at the first one that is not before
// the pair.
pub fn seek(entries: &Entries, i: usize, a: usize, b: usize) -> Option<Match>
    requires { (i ≤ entries.now.m) × (a < 1024) × (b < 1024) }
    ensures { Seeks entries.now.file.now i (a, b) result }
{
    let want = a * 1024 + b;
    for at in i..entries.m {
        let e = entries.get(at);
        let have = e.a * 1024 + e.b;
        if want < have {
            return None;
        }
        if have == want {
            return Some(Match {
                points: e.points,
                next: at + 1,
            });
        }
    }
    None
}
