// Inner functions of solve and lift: see specs/Lifting.
ghost use Rattle.std.specs.Prelude.{◌≡◌, ◌∷◌, [], ◌++◌};
ghost use Rattle.buffers.specs.Buffers.{lent};
ghost use Rattle.slots.specs.Slots.{Holds, graph_of};
ghost use Rattle.checks.specs.Refusals.{too_few_words};
ghost use Rattle.checks.specs.Calls.{answered, one, two, call_rows, crowded_row};
ghost use Rattle.checks.specs.Answering.{Does};
ghost use Rattle.lifting.specs.Calls.{pair_file, solve_rows, solve_file, lift_rows, lift_file, lift_origins};
ghost use Rattle.matching.specs.Solve.{solution};
ghost use Rattle.matching.specs.Groups.{largest};
ghost use Rattle.solving.specs.Left.{LeftThere};
ghost use Rattle.lifting.specs.Tail.{TailThere};
ghost use Rattle.lifting.specs.Lifting.{Enters, LiftsTail};

use crate::ends;
use cellfile::decode::PairEntry;
use cellfile::records::Records;
use checks;
use checks::Refusal;
use partners;
use partners::table::Table;
use slots::graph::WorkingGraph;
use solving;
use starting;
use starting::Started;

// Refusals 11 and 12, and the solution of what the steps left.
fn solve_tail(at: Started, w1: &mut [u64], w2: &mut [u64], out: &mut [u8]) -> Result<usize, Refusal>
    requires { LeftThere at.n at.slots w1.old w2.old }
    ensures { Does (crowded_row (largest at.n (graph_of at.slots w1.old)) ∷ [])
        ((pair_file at.n (solution at.n (graph_of at.slots w1.old)), out.old, out.new) ∷ [])
        (answered one result) }
{
    solving::solve_left(w1, w2, at.slots, at.n).ok_or(Refusal::Crowded)?;
    let table = Table { words: w2 };
    let r = partners::list_pairs(w1, &table, at.n);
    ends::write_pairs(at.n, &w1[..r], out)
}

// Solve, which leaves anything in the work buffers.
pub fn solve_in(
    list: &[u8],
    slip: &[u8],
    w1: &mut [u64],
    w2: &mut [u64],
    pairing: &mut [u8],
) -> Result<usize, Refusal>
    ensures { Does (call_rows (too_few_words (lent w1.old w2.old)) list.now ++ solve_rows list.now slip.now)
        ((solve_file list.now slip.now, pairing.old, pairing.new) ∷ [])
        (answered one result) }
{
    let at = starting::start_slip(list, slip, w1, w2)?;
    solve_tail(at, w1, w2, pairing)
}

// Refusal 10 of a pairing for the graph in e slots; its partners go into the table.
fn enter(
    pairs: &Records<'_, PairEntry>,
    e: usize,
    w1: &mut [u64],
    w2: &mut [u64],
) -> Result<(), Refusal>
    requires { Holds e w1.old w2.old }
    ensures { Enters (graph_of e w1.old) pairs.now.file.now w2.old w2.new result × (w1.new ≡ w1.old) }
{
    let mut graph = WorkingGraph { w1, w2, slots: e };
    if partners::enter(pairs, &mut graph) {
        return Err(Refusal::NoPairing);
    }
    Ok(())
}

// Refusals 9, 10 and 12, and the pairing of what the steps left brought back over the trail.
fn lift_tail(
    at: Started,
    pairing: &[u8],
    w1: &mut [u64],
    w2: &mut [u64],
    out: &mut [u8],
    origins: &mut [u8],
) -> Result<(usize, usize), Refusal>
    requires { TailThere at.n at.slots at.trail at.steps w1.old w2.old }
    ensures { LiftsTail at.n at.slots at.trail at.steps pairing.now w1.old w2.old
        (out.old, out.new) (origins.old, origins.new) (answered two result) }
{
    let pairs = checks::check_pairing(pairing, at.n)?;
    enter(&pairs, at.slots, w1, w2)?;
    ends::bring_back(at, w1, w2, out, origins)
}

// Lift, which leaves anything in the work buffers.
pub fn lift_in(
    list: &[u8],
    slip: &[u8],
    pairing: &[u8],
    w1: &mut [u64],
    w2: &mut [u64],
    lifted: &mut [u8],
    origins: &mut [u8],
) -> Result<(usize, usize), Refusal>
    ensures { Does (call_rows (too_few_words (lent w1.old w2.old)) list.now
        ++ lift_rows list.now slip.now pairing.now)
        ((lift_file list.now slip.now pairing.now, lifted.old, lifted.new)
        ∷ (lift_origins list.now slip.now pairing.now, origins.old, origins.new) ∷ [])
        (answered two result) }
{
    let at = starting::start_slip(list, slip, w1, w2)?;
    lift_tail(at, pairing, w1, w2, lifted, origins)
}
