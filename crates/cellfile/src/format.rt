// Inner: the files in numbers, as specs/Files lays them out; what the enums stand for: specs/Kinds.
ghost use Rattle.std.specs.Prelude.{◌≡◌, ◌<◌, ◌≤◌, ℕ};
ghost use Rattle.cellfile.specs.Fields.{size};
ghost use Rattle.cellfile.specs.Files.{start as records_start, file_length, number_of, rule_named};
ghost use Rattle.cellfile.specs.Kinds.{layout_of, as_rule};

// The kinds of file, by their numbers.
#[derive(Clone, Copy, PartialEq, Eq)]
pub enum Kind {
    StoreList = 1,
    ShortList = 2,
    Slip = 3,
    Pairing = 4,
    OriginList = 5,
    RawList = 6,
}

// The rules of the steps, by their numbers in a slip and in an origin list.
#[derive(Clone, Copy, PartialEq, Eq)]
pub enum Rule {
    Leaf = 1,
    Ring = 2,
    Chain = 3,
}

pub const HEADER_BYTES: usize = 4;

// The bytes of the carried points, which stand behind the header of a short list.
pub const CARRIED_BYTES: usize = 8;

pub const SHORT_START: usize = HEADER_BYTES + CARRIED_BYTES;

impl Kind {
    // The bytes of a record.
    pub fn record_bytes(self) -> usize
        ensures is { result ≡ size (layout_of self).entry }
        ensures most { result ≤ 8 }
    {
        match self {
            Kind::StoreList | Kind::OriginList | Kind::RawList => 5,
            Kind::ShortList => 8,
            Kind::Slip => 2,
            Kind::Pairing => 3,
        }
    }

    // Where the records start.
    pub fn start(self) -> usize
        ensures is { (n : ℕ) → result ≡ records_start (layout_of self) n }
        ensures most { result ≤ 12 }
    {
        match self {
            Kind::ShortList => SHORT_START,
            _ => HEADER_BYTES,
        }
    }

    // The bytes of a file of m records.
    pub fn file_bytes(self, m: usize) -> usize
        requires { m < 8192 }
        ensures { (n : ℕ) → result ≡ file_length (layout_of self) n m }
    {
        self.start() + self.record_bytes() * m
    }
}

impl Rule {
    // The rule with that number; of a number that no rule has, chain.
    pub fn named(number: u64) -> Rule
        ensures { as_rule result ≡ rule_named number }
    {
        match number {
            1 => Rule::Leaf,
            2 => Rule::Ring,
            _ => Rule::Chain,
        }
    }
}

impl From<Kind> for u64 {
    ghost from_gives = { λ kind number. number ≡ (layout_of kind).kind };

    fn from(kind: Kind) -> u64 {
        kind as u64
    }
}

impl From<Rule> for u64 {
    ghost from_gives = { λ rule number. number ≡ number_of (as_rule rule) };

    fn from(rule: Rule) -> u64 {
        rule as u64
    }
}
