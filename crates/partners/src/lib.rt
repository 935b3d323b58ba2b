// Inner, for weighing and lifting: a pairing into the table of partners, and out of it with where its pairs came from.
// See specs/Table.
#![tactic(auto)]

mod pairs;
pub mod table;

ghost use Rattle.std.specs.Prelude.{◌≡◌, not, List, ◌*◌, ◌%◌, ◌≤◌, ◌<◌, length};
ghost use Rattle.buffers.specs.Map.{partner_field};
ghost use Rattle.matching.specs.Pairs.{Pair};
ghost use Rattle.matching.specs.Origin.{Origins};
ghost use Rattle.cellfile.specs.Files.{pairs_of};
ghost use Rattle.slots.specs.Working.{graph_in};
ghost use Rattle.partners.specs.Table.{Entered, record_in, TableThere, Listed};
ghost use Rattle.partners.specs.Entering.{all_there, Filled};

use crate::table::Table;
use buffers::map::{ORIGIN_WORDS, PAIR_A, PAIR_B, PARTNER_FIELD, TABLE};
use cellfile::decode::PairEntry;
use cellfile::records::Records;
use origins::{Origin, PairOrigin};
use slots::graph::WorkingGraph;

// The record of an origin list for the pair of the cell a, by the cell's word in the table.
fn record_of(a: u64, word: u64) -> u64
    requires { (a < 1024) × (1 ≤ word % partner_field) × (word % partner_field ≤ 1024)
        × (word < partner_field * 16384) }
    ensures { result ≡ record_in a word }
{
    let origin = Origin::of_stamp(word / PARTNER_FIELD);
    let pair = PairOrigin {
        a,
        b: word % PARTNER_FIELD - 1,
        origin,
    };
    pair.word()
}

// The pairs of a table of partners of n cells in file order, as words at the start of the first buffer, and their
// records of an origin list behind them: their number.
pub fn list_pairs(w1: &mut [u64], table: &Table<'_>, n: usize) -> usize
    requires { (o : Origins) × (m : List Pair) × TableThere n w1.old table.now.words.now o m }
    ensures { (o : Origins) (m : List Pair) → TableThere n w1.old table.now.words.now o m
        → Listed o m w1.new result }
{
    let mut r = 0;
    for c in 0..n {
        let word = table.words[TABLE + c];
        let p = word % PARTNER_FIELD;
        let low = c as u64;
        if low + 1 < p {
            w1[r] = low * PAIR_A + (p - 1) * PAIR_B;
            w1[ORIGIN_WORDS + r] = record_of(low, word);
            r += 1;
        }
    }
    r
}

// Whether a pair of the pairing is not in the graph.
fn is_missing(pairs: &Records<'_, PairEntry>, graph: &WorkingGraph) -> bool
    ensures { result ≡ not (all_there (graph_in graph.now) (pairs_of pairs.now.file.now)) }
{
    (0..pairs.count).any(|i| {
        let p = pairs.get(i);
        graph.find(p.a, p.b).is_none()
    })
}

// Whether a cell of the pairing stands twice; else the table in the buffer has its partners.
pub fn enter_pairs(pairs: &Records<'_, PairEntry>, w2: &mut [u64]) -> bool
    requires { 8192 ≤ length w2.old }
    ensures { Filled (pairs_of pairs.now.file.now) w2.old w2.new result }
{
    let mut table = Table { words: w2 };
    table.enter(pairs)
}

// Whether refusal 10 holds of a pairing that has passed 9, for the graph; else its partners are in the table.
pub fn enter(pairs: &Records<'_, PairEntry>, graph: &mut WorkingGraph) -> bool
    ensures { Entered pairs.now.file.now graph.old graph.new result }
{
    if is_missing(pairs, graph) {
        return true;
    }
    enter_pairs(pairs, graph.w2)
}
