// Inner, for the reduction and the way back: the heaviest pairings of the row of a chain or ring, over its words in
// reading order. Their points, and the best as marks: see specs/Row.
#![tactic(auto)]

ghost use Rattle.std.specs.Prelude.{◌≡◌, ◌≢◌, cond, List, ◌++◌, map, ℕ, ◌+◌, ◌*◌, ◌-◌, ◌^◌, ◌<◌, ◌≤◌, max, eqb, length};
ghost use Rattle.matching.specs.Pairs.{Points};
ghost use Rattle.matching.specs.Best.{pays, tie};
ghost use Rattle.buffers.specs.Map.{unit};
ghost use Rattle.rows.specs.Row.{row_points, RowOf, heavy, paying, standing, ChainH, RingH, part_marks};
ghost use Rattle.rows.specs.Row.{Blank, less, RowBest, WaysBefore, out, taking};

use buffers::map;

// H of a chain, of it less u, less v, and less both.
#[derive(Clone, Copy)]
pub struct ChainPoints {
    pub whole: u64,
    pub less_u: u64,
    pub less_v: u64,
    pub inner: u64,
}

// H of a ring, and of it less u.
#[derive(Clone, Copy)]
pub struct RingPoints {
    pub whole: u64,
    pub less_u: u64,
}

fn points_of(x: u64) -> u64
    ensures { (result ≡ row_points x) × (result < unit) }
{
    x % map::POINTS_UNIT
}

// The points that a path or a ring brings without its first pair, and with it.
#[derive(Clone, Copy)]
struct Ways {
    without: u64,
    with: u64,
}

impl Ways {
    // Those of no pairs.
    const NONE: Ways = Ways {
        without: 0,
        with: 0,
    };

    fn best(self) -> u64
        ensures { result ≡ max self.without self.with }
    {
        self.without.max(self.with)
    }

    // Whether the first pair pays: here stands the tie of chains and rings.
    #[tactic(auto, using(crate::proofs::Best::pays_is))]
    fn pays(self) -> bool
        ensures { result ≡ pays tie self.without self.with }
    {
        self.without <= self.with
    }

    // Those of the path with one more pair before it.
    fn before(self, word: u64) -> Ways
        requires { self.without + unit < 2 ^ 64 }
        ensures { WaysBefore self word result }
    {
        Ways {
            without: self.best(),
            with: points_of(word) + self.without,
        }
    }
}

// The points of a heaviest pairing of a path, from its last pair on.
fn path_points(words: &[u64]) -> u64
    requires { length words.now ≤ 1024 }
    ensures { (result ≡ heavy words.now) × (result ≤ (unit - 1) * length words.now) }
{
    let mut ways = Ways::NONE;
    for word in words.iter().rev() {
        ways = ways.before(*word);
    }
    ways.best()
}

// A mark as it stands behind the mark before it.
fn stand(before: u64, mark: u64) -> u64
    ensures { result ≡ cond (eqb before 1) 0 mark }
{
    if before == 1 { 0 } else { mark }
}

// Marks the pairs of a path that pay, from its last pair on: as words, which stand in the lent buffer.
fn mark_paying(words: &[u64], marks: &mut [u64])
    requires { (length words.now ≤ 1024) × (length marks.old ≡ length words.now) }
    ensures { marks.new ≡ paying (map row_points words.now) }
{
    let mut ways = Ways::NONE;
    for i in (0..words.len()).rev() {
        ways = ways.before(words[i]);
        marks[i] = u64::from(ways.pays());
    }
}

// Leaves no mark right behind one that stands.
fn let_stand(marks: &mut [u64])
    ensures { marks.new ≡ standing 0 marks.old }
{
    let mut before = 0;
    for mark in marks.iter_mut() {
        before = stand(before, *mark);
        *mark = before;
    }
}

// The words of the row of a chain or a ring in reading order, one for each pair.
#[derive(Clone, Copy)]
pub struct Row<'a> {
    pub words: &'a [u64],
    pub ghost least: { 3 ≤ length words.now },
    pub ghost most: { length words.now ≤ 1024 },
}

impl Row<'_> {
    // H of the chain that the words are, whichever graph's.
    pub fn chain_points(self) -> ChainPoints
        ensures { (w : Points) (u : ℕ) (inner : List ℕ) (v : ℕ) → RowOf w u inner v self.entry.words.now → u ≢ v
            → ChainH w u inner v result }
    {
        let words = self.words;
        let e = words.len() - 1;
        ChainPoints {
            whole: path_points(words),
            less_u: path_points(&words[1..]),
            less_v: path_points(&words[0..e]),
            inner: path_points(&words[1..e]),
        }
    }

    // The points of the ring that the words are without its first pair, and with it.
    fn ring_ways(self) -> Ways
        ensures { (result.without ≡ out self.entry.words.now) × (result.with ≡ taking self.entry.words.now) }
    {
        let words = self.words;
        let e = words.len() - 1;
        Ways {
            without: path_points(&words[1..]),
            with: points_of(words[0]) + path_points(&words[2..e]),
        }
    }

    // H of the ring that the words are, whichever graph's.
    pub fn ring_points(self) -> RingPoints
        ensures { (w : Points) (u : ℕ) (inner : List ℕ) → RowOf w u inner u self.entry.words.now
            → RingH w u inner result }
    {
        let e = self.words.len() - 1;
        RingPoints {
            whole: self.ring_ways().best(),
            less_u: path_points(&self.words[1..e]),
        }
    }

    // Marks the best of the part of the words from place a to before place e.
    fn mark_part(self, a: usize, e: usize, marks: &mut [u64])
        requires { (a ≤ e) × (e ≤ length self.words.now) × (length marks.old ≡ length self.words.now)
            × Blank marks.old }
        ensures { marks.new ≡ part_marks a e self.entry.words.now }
    {
        let part = &mut marks[a..e];
        mark_paying(&self.words[a..e], part);
        let_stand(part);
    }

    // Marks the best of the chain that the words are, less u, less v or less both, whichever graph's.
    pub fn mark_chain(self, less_u: bool, less_v: bool, marks: &mut [u64])
        requires { (length marks.old ≡ length self.words.now) × Blank marks.old }
        ensures { (w : Points) (u : ℕ) (inner : List ℕ) (v : ℕ) → RowOf w u inner v self.entry.words.now → u ≢ v
            → RowBest w (less less_u u ++ less less_v v) u inner v marks.new }
    {
        let a = usize::from(less_u);
        let e = self.words.len() - usize::from(less_v);
        self.mark_part(a, e, marks);
    }

    // Marks the best of the ring that the words are, or of it less u, whichever graph's.
    pub fn mark_ring(self, less_u: bool, marks: &mut [u64])
        requires { (length marks.old ≡ length self.words.now) × Blank marks.old }
        ensures { (w : Points) (u : ℕ) (inner : List ℕ) → RowOf w u inner u self.entry.words.now
            → RowBest w (less less_u u) u inner u marks.new }
    {
        let n = self.words.len();
        if less_u {
            self.mark_part(1, n - 1, marks);
        } else if self.ring_ways().pays() {
            self.mark_part(2, n - 1, marks);
            marks[0] = 1;
        } else {
            self.mark_part(1, n, marks);
        }
    }
}
