// Inner, for the reduction and the way back: the words of the trail, written and read. See specs/Trail; that reading
// gives back what was written: proofs/Trail.
ghost use Rattle.std.specs.Prelude.{◌≡◌, ◌+◌, ◌*◌, ◌<◌, ◌≤◌};
ghost use Rattle.buffers.specs.Map.{unit};
ghost use Rattle.finding.specs.Finding.{told_of};
ghost use Rattle.trail.specs.Trail.{CellsFit, step_part, closing_told, step_in, pairs_in, more_in, cell_of, cell_at};

use buffers::map;
use cellfile::format::Rule;
use finding::Step;

// The places of the closing word's parts.
const RULES: u64 = 4;

const CELL_U: u64 = 4;

const CELL_V: u64 = 4096;

const CELL_Z: u64 = 4194304;

const PAIRS: u64 = 4294967296;

const MORE: u64 = 35184372088832;

// The rule and the cells of a step, at their places.
fn step_word(step: Step) -> u64
    requires { CellsFit step }
    ensures { result ≡ step_part step }
{
    match step {
        Step::Leaf { v, u } => u64::from(Rule::Leaf) + u as u64 * CELL_U + v as u64 * CELL_V,
        Step::Ring { u, z } => u64::from(Rule::Ring) + u as u64 * CELL_U + z as u64 * CELL_Z,
        Step::Chain { u, v, z } => {
            u64::from(Rule::Chain) + u as u64 * CELL_U + v as u64 * CELL_V + z as u64 * CELL_Z
        }
    }
}

// The word that closes a step's part of the trail.
pub fn closing_word(step: Step, pairs: usize, more: bool) -> u64
    requires { CellsFit step × (pairs ≤ 4096) }
    ensures { result ≡ closing_told step pairs more }
{
    step_word(step) + pairs as u64 * PAIRS + u64::from(more) * MORE
}

// The cell at a place of a word.
fn cell_at(word: u64, place: u64) -> usize
    requires { 0 < place }
    ensures { result ≡ cell_at place word }
{
    (word / place % map::CELL_FIELD) as usize
}

// The step that a word closes.
pub fn step_of(word: u64) -> Option<Step>
    ensures { told_of result ≡ step_in word }
{
    let rule = word % RULES;
    if rule == 0 {
        return None;
    }
    let u = cell_at(word, CELL_U);
    let v = cell_at(word, CELL_V);
    let z = cell_at(word, CELL_Z);
    match Rule::named(rule) {
        Rule::Leaf => Some(Step::Leaf { v, u }),
        Rule::Ring => Some(Step::Ring { u, z }),
        Rule::Chain => Some(Step::Chain { u, v, z }),
    }
}

// The number of pairs in its row.
pub fn pairs_of(word: u64) -> usize
    ensures { result ≡ pairs_in word }
{
    (word / PAIRS % (MORE / PAIRS)) as usize
}

// Whether the direct pair of a chain stays.
pub fn more_of(word: u64) -> bool
    ensures { result ≡ more_in word }
{
    word / MORE == 1
}

// The word of a pair of a row: the cell that it starts from, above its points.
pub fn row_word(cell: usize, points: u64) -> u64
    requires { (cell < 1024) × (points < unit) }
    ensures { result ≡ cell * unit + points }
{
    cell as u64 * map::POINTS_UNIT + points
}

// The cell that a pair of a row starts from.
pub fn cell_of(word: u64) -> usize
    ensures { result ≡ cell_of word }
{
    (word / map::POINTS_UNIT) as usize
}
