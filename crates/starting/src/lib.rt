// Inner, for the calls with steps: their first part, which checks the inputs and takes the steps. See specs/Starting.
#![tactic(auto)]

ghost use Rattle.std.specs.Prelude.{◌≡◌, ◌++◌, ◌<◌, ◌≤◌, length};
ghost use Rattle.std.proofs.Math.Option.{some};
ghost use Rattle.buffers.specs.Buffers.{lent};
ghost use Rattle.cellfile.specs.Files.{steps_of};
ghost use Rattle.checks.specs.Refusals.{too_few_words};
ghost use Rattle.checks.specs.Calls.{call_rows};
ghost use Rattle.starting.specs.Steps.{steps_on, slip_rows, reduce_steps};
ghost use Rattle.running.specs.Running.{names_of, steps_in};
ghost use Rattle.starting.specs.Starting.{Starts, Settles, RefusedClears, course_on, Takes};

use buffers;
use cellfile::decode::SlipStep;
use cellfile::format::Rule;
use cellfile::records::Records;
use checks;
use checks::{Refusal, StoreList};
use running;
use running::lists;
use slots::graph::WorkingGraph;

// The cells of the list, and as of `running::run` what stands in the buffers after the steps.
#[derive(Clone, Copy)]
pub struct Started {
    pub n: usize,
    pub slots: usize,
    pub trail: usize,
    pub carried: u64,
    pub steps: usize,
}

// The steps of the slip on the list, then at most `more` steps as reduce takes them.
fn take_steps(
    list: &StoreList,
    slip: Option<&Records<'_, SlipStep>>,
    more: usize,
    w1: &mut [u64],
    w2: &mut [u64],
) -> Result<Started, Refusal>
    requires { (8192 ≤ length w1.old) × (8192 ≤ length w2.old) × (more ≤ 1024) }
    ensures { Takes list.now.entries.file.now (course_on list.now.entries.file.now
        (steps_in slip.entry (λ r. names_of r.now.file.now)) more) w1.new w2.new result }
{
    let n = list.entries.n;
    buffers::clear(w2);
    let mut graph = WorkingGraph { w1, w2, slots: 0 };
    lists::load(list, &mut graph);
    let ran = running::run(&mut graph, n, slip, more)?;
    Ok(Started {
        n,
        slots: graph.slots,
        trail: ran.trail,
        carried: ran.carried,
        steps: ran.steps,
    })
}

// Refusals 1 to 8, then the steps of the slip on the list; a refusal leaves anything in the buffers.
fn begin_slip(list: &[u8], slip: &[u8], w1: &mut [u64], w2: &mut [u64]) -> Result<Started, Refusal>
    ensures { Starts (call_rows (too_few_words (lent w1.old w2.old)) list.now ++ slip_rows list.now slip.now)
        list.now (steps_on list.now (steps_of slip.now)) w1.new w2.new result }
{
    let store = checks::check_call(list, w1, w2)?;
    let steps = checks::check_slip(
        slip,
        store.entries.n,
        u64::from(Rule::Leaf),
        u64::from(Rule::Chain),
    )?;
    take_steps(&store, Some(&steps), 0, w1, w2)
}

// Refusals 1 to 6, then the steps that reduce takes on the list; a refusal leaves anything in the buffers.
fn begin_reduce(list: &[u8], w1: &mut [u64], w2: &mut [u64]) -> Result<Started, Refusal>
    ensures { Starts (call_rows (too_few_words (lent w1.old w2.old)) list.now) list.now
        (some (reduce_steps list.now)) w1.new w2.new result }
{
    let store = checks::check_call(list, w1, w2)?;
    take_steps(&store, None, store.entries.n, w1, w2)
}

// Clears the buffers where the start was refused.
fn settle(r: &Result<Started, Refusal>, w1: &mut [u64], w2: &mut [u64])
    ensures { Settles w1.old w2.old w1.new w2.new r.now }
{
    if r.is_err() {
        buffers::clear_both(w1, w2);
    }
}

// Refusals 1 to 8, which leave the buffers zero; then the steps of the slip on the list.
pub fn start_slip(
    list: &[u8],
    slip: &[u8],
    w1: &mut [u64],
    w2: &mut [u64],
) -> Result<Started, Refusal>
    ensures starts { Starts (call_rows (too_few_words (lent w1.old w2.old)) list.now ++ slip_rows list.now slip.now)
        list.now (steps_on list.now (steps_of slip.now)) w1.new w2.new result }
    ensures cleared { RefusedClears w1.old w2.old w1.new w2.new result }
{
    let r = begin_slip(list, slip, w1, w2);
    settle(&r, w1, w2);
    r
}

// Refusals 1 to 6, which leave the buffers zero; then the steps that reduce takes on the list.
pub fn start_reduce(list: &[u8], w1: &mut [u64], w2: &mut [u64]) -> Result<Started, Refusal>
    ensures starts { Starts (call_rows (too_few_words (lent w1.old w2.old)) list.now) list.now
        (some (reduce_steps list.now)) w1.new w2.new result }
    ensures cleared { RefusedClears w1.old w2.old w1.new w2.new result }
{
    let r = begin_reduce(list, w1, w2);
    settle(&r, w1, w2);
    r
}
