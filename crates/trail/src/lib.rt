// Inner, for the reduction: the row of a ring or a chain taken from the working graph onto the trail. See specs/Taking;
// `words` has the words of the trail.
#![tactic(auto)]

pub mod words;

ghost use Rattle.trail.specs.Taking.{RowThere, RowTaken, PairThere, PairTaken};

use finding::Stop;
use slots::graph::WorkingGraph;

// The pair of the walk's stop goes; its word, from the cell before, goes onto the trail at place t.
fn take_pair(graph: &mut WorkingGraph, t: usize, at: Stop)
    requires { PairThere graph.old t at }
    ensures { PairTaken graph.old graph.new t at }
{
    let word = words::row_word(at.last, graph.w1[at.slot]);
    graph.kill(at.slot);
    graph.set_word(t, word);
}

// The row that is entered at a stop goes, to its end v: its words stand on the trail from place t on. Their number.
pub fn take_row(graph: &mut WorkingGraph, t: usize, from: Stop, v: usize) -> usize
    requires { RowThere graph.old t from v }
    ensures { RowTaken graph.old graph.new t from v result }
{
    let mut at = from;
    let mut k = 0;
    // The row ends at a cell, after as many pairs as it has.
    while at.end != v {
        let next = finding::onward(graph, at);
        take_pair(graph, t + k, at);
        at = next;
        k += 1;
    }
    take_pair(graph, t + k, at);
    k + 1
}
