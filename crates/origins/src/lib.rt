// Inner, for partners and undoing: where a pair came from, its stamp in the table of partners, and its record in an
// origin list. See specs/Stamps.
#![tactic(auto)]

ghost use Rattle.std.specs.Prelude.{◌≡◌, ◌≤◌, ◌<◌};
ghost use Rattle.matching.specs.Origin.{number_in};
ghost use Rattle.cellfile.specs.Words.{word_of_origin};
ghost use Rattle.origins.specs.Stamps.{as_origin, stamp_for, origin_in};

use cellfile::format::Rule;

// From the short list, or from a step with its rule; steps count from 1.
#[derive(Clone, Copy)]
pub enum Origin {
    Short,
    Step { number: u64, rule: Rule },
}

// A pair and where it came from.
#[derive(Clone, Copy)]
pub struct PairOrigin {
    pub a: u64,
    pub b: u64,
    pub origin: Origin,
}

// One of the step in a stamp, above the rule.
const STEP: u64 = 8;

// One of each field in a record of an origin list: the cells, and the stamp, which is step and rule.
const CELL_A: u64 = 1073741824;

const CELL_B: u64 = 1048576;

const STAMP: u64 = 64;

impl Origin {
    // Its stamp: 0, or its step above its rule.
    pub fn stamp(self) -> u64
        requires { number_in (as_origin self) < 2048 }
        ensures { (result ≡ stamp_for (as_origin self)) × (result < 16384) }
    {
        match self {
            Origin::Short => 0,
            Origin::Step { number, rule } => number * STEP + u64::from(rule),
        }
    }

    // The origin with that stamp.
    pub fn of_stamp(stamp: u64) -> Origin
        ensures { as_origin result ≡ origin_in stamp }
    {
        if stamp == 0 {
            return Origin::Short;
        }
        Origin::Step {
            number: stamp / STEP,
            rule: Rule::named(stamp % STEP),
        }
    }
}

impl PairOrigin {
    // Its record in an origin list, as a word.
    pub fn word(self) -> u64
        requires { (self.a < 1024) × (self.b < 1024) × (number_in (as_origin self.origin) < 2048) }
        ensures { result ≡ word_of_origin (λ a b. as_origin self.origin) (self.a, self.b) }
    {
        self.a * CELL_A + self.b * CELL_B + self.origin.stamp() * STAMP
    }
}
