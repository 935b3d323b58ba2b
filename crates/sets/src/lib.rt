// Inner, for solving: the heaviest pairing of a set of at most 12 cells, by their places. See specs/Sets.
#![tactic(auto)]

ghost use Rattle.std.specs.Prelude.{◌≡◌, ◌-◌, ◌/◌, ◌%◌, ◌^◌, ◌<◌, ◌≤◌, length};
ghost use Rattle.std.specs.Option.{IfSome};
ghost use Rattle.sets.specs.Sets.{points, partner_told, Lowest, Best, Kept, Ready, Forgotten, Takes};

use buffers::map::SETS;

// How many places there are at most.
pub const MOST: usize = 12;

// The lowest place of a set with its partner in the set's heaviest pairing, and the set without them.
#[derive(Clone, Copy)]
pub struct Taken {
    pub low: usize,
    pub partner: Option<usize>,
    pub rest: usize,
}

// What the table has of a set, or 0 where nothing is known of it: the points of its heaviest pairing, and below them
// the partner of its lowest place, as the partner's place and 2, or 1 where it has none.
#[derive(Clone, Copy)]
struct Word(u64);

impl Word {
    // One of the points, above the partner.
    const POINT: u64 = 16;

    fn of(points: u64, partner: Option<usize>) -> Word
        requires { (points < 2 ^ 59) × IfSome partner (λ p. p < 12) }
        ensures known { 0 < result.0 % 16 }
        ensures points { result.0 / 16 ≡ points }
        ensures partner { partner_told result.0 ≡ partner }
    {
        let told = match partner {
            None => 1,
            Some(p) => p as u64 + 2,
        };
        Word(points * Self::POINT + told)
    }

    fn points(self) -> u64
        ensures { result ≡ self.0 / 16 }
    {
        self.0 / Self::POINT
    }

    fn partner(self) -> Option<usize>
        ensures { result ≡ partner_told self.0 }
    {
        (self.0 % Self::POINT).checked_sub(2).map(|p| p as usize)
    }
}

// The set of the first k places.
#[tactic(auto, using(crate::proofs::Places::one_shifted))]
pub fn first_places(k: usize) -> usize
    requires { k ≤ 12 }
    ensures { result ≡ 2 ^ k - 1 }
{
    (1 << k) - 1
}

// Nothing is known of the sets of the first k places afterwards.
pub fn clear_sets(w1: &mut [u64], k: usize)
    requires { (8192 ≤ length w1.old) × (k ≤ 12) }
    ensures { Forgotten k w1.old w1.new }
{
    let end = SETS + (1 << k);
    w1[SETS..end].fill(0);
}

// The lowest place of the set.
#[tactic(auto, using(crate::proofs::Places::lowest_place))]
fn lowest(s: usize) -> usize
    requires { (0 < s) × (s < 4096) }
    ensures { Lowest result s }
{
    s.trailing_zeros() as usize
}

// The set of one place.
#[tactic(auto, using(crate::proofs::Places::one_shifted))]
fn single(p: usize) -> usize
    requires { p < 12 }
    ensures { result ≡ 2 ^ p }
{
    1 << p
}

// The word of the set s of some of the first k places. It is kept in the table.
#[cycle(heavy_word_of)]
fn word_of(ws: &[u64], w1: &mut [u64], k: usize, s: usize) -> Word
    requires { Ready ws.now w1.old k s }
    ensures { Best ws.now s result.0 × Kept ws.now k w1.old w1.new }
{
    let have = w1[SETS + s];
    if have != 0 {
        return Word(have);
    }
    heavy(ws, w1, k, s)
}

// The same, worked out from the words of smaller sets.
#[cycle(heavy_word_of)]
fn heavy(ws: &[u64], w1: &mut [u64], k: usize, s: usize) -> Word
    requires { Ready ws.now w1.old k s }
    ensures { Best ws.now s result.0 × Kept ws.now k w1.old w1.new }
{
    if s == 0 {
        return Word::of(0, None);
    }
    let c = lowest(s);
    let rest = s - single(c);
    let mut best = Word::of(word_of(ws, w1, k, rest).points(), None);
    for q in c + 1..k {
        if (rest >> q) % 2 == 1 {
            let x = ws[MOST * c + q];
            if 0 < x {
                let y = x + word_of(ws, w1, k, rest - single(q)).points();
                // Made whether it is kept or not, so that the compiled code has no jump on the points.
                let word = Word::of(y, Some(q));
                if best.points() < y {
                    best = word;
                }
            }
        }
    }
    w1[SETS + s] = best.0;
    best
}

// The points of the heaviest pairing of the set s, of which nothing is known. (That `heavy` is called here and not
// `word_of` keeps the two apart in the compiled code: a word that is known costs no call then.)
pub fn points_of(ws: &[u64], w1: &mut [u64], k: usize, s: usize) -> u64
    requires { Ready ws.now w1.old k s }
    ensures { (result ≡ points ws.now s)
        × Kept ws.now k w1.old w1.new }
{
    heavy(ws, w1, k, s).points()
}

// The lowest place of the set s and its partner in the heaviest pairing of the set.
pub fn take_lowest(ws: &[u64], w1: &mut [u64], k: usize, s: usize) -> Taken
    requires { Ready ws.now w1.old k s × (0 < s) }
    ensures { Takes ws.now s result
        × Kept ws.now k w1.old w1.new }
{
    let partner = word_of(ws, w1, k, s).partner();
    let low = lowest(s);
    let others = s - single(low);
    let rest = match partner {
        None => others,
        Some(p) => others - single(p),
    };
    Taken { low, partner, rest }
}
