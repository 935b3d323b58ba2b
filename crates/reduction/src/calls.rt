// Inner functions of replay and reduce: see specs/Writing.
ghost use Rattle.std.specs.Prelude.{◌∷◌, [], ◌++◌, ◌≤◌, length};
ghost use Rattle.buffers.specs.Buffers.{lent};
ghost use Rattle.slots.specs.Slots.{graph_of};
ghost use Rattle.reduction.specs.Calls.{replay_short, slip_file, short_file};
ghost use Rattle.starting.specs.Steps.{slip_rows, reduce_steps};
ghost use Rattle.running.specs.Pairs.{PairsLeft};
ghost use Rattle.reduction.specs.Writing.{left_file, taken_file};
ghost use Rattle.checks.specs.Refusals.{too_few_words};
ghost use Rattle.checks.specs.Calls.{answered, one, two, call_rows};
ghost use Rattle.checks.specs.Answering.{Does};

use buffers::map::NAMES;
use cellfile::format::Kind;
use cellfile::write;
use checks;
use checks::Refusal;
use running::lists;
use starting;
use starting::Started;

// Refusal 12 and the short list of the graph in the slots.
fn write_left(at: Started, w1: &mut [u64], short: &mut [u8]) -> Result<usize, Refusal>
    requires { PairsLeft at.n at.slots w1.old }
    ensures { Does [] ((left_file at.n at.carried (graph_of at.slots w1.old), short.old, short.new) ∷ [])
        (answered one result) }
{
    let r = lists::finish(w1, at.slots);
    let size = Kind::ShortList.file_bytes(r);
    checks::check_room(short, size)?;
    write::write_short(at.n, at.carried, w1, r, short);
    Ok(size)
}

// Refusal 12 and both files: the slip of the steps that stand as words, and the short list of the graph in the slots.
fn write_both(
    at: Started,
    w1: &mut [u64],
    w2: &[u64],
    slip: &mut [u8],
    short: &mut [u8],
) -> Result<(usize, usize), Refusal>
    requires { PairsLeft at.n at.slots w1.old × (at.steps ≤ 1024) × (8192 ≤ length w2.now) }
    ensures { Does []
        ((taken_file at.n at.steps w2.now, slip.old, slip.new)
        ∷ (left_file at.n at.carried (graph_of at.slots w1.old), short.old, short.new) ∷ [])
        (answered two result) }
{
    let r = lists::finish(w1, at.slots);
    let slip_size = Kind::Slip.file_bytes(at.steps);
    let short_size = Kind::ShortList.file_bytes(r);
    checks::check_room(slip, slip_size)?;
    checks::check_room(short, short_size)?;
    write::write_words(Kind::Slip, at.n, &w2[NAMES..NAMES + at.steps], slip);
    write::write_short(at.n, at.carried, w1, r, short);
    Ok((slip_size, short_size))
}

// Replay, which leaves anything in the work buffers.
pub fn replay_in(
    list: &[u8],
    slip: &[u8],
    w1: &mut [u64],
    w2: &mut [u64],
    short: &mut [u8],
) -> Result<usize, Refusal>
    ensures { Does (call_rows (too_few_words (lent w1.old w2.old)) list.now ++ slip_rows list.now slip.now)
        ((replay_short list.now slip.now, short.old, short.new) ∷ []) (answered one result) }
{
    let at = starting::start_slip(list, slip, w1, w2)?;
    write_left(at, w1, short)
}

// Reduce, which leaves anything in the work buffers.
pub fn reduce_in(
    list: &[u8],
    w1: &mut [u64],
    w2: &mut [u64],
    slip: &mut [u8],
    short: &mut [u8],
) -> Result<(usize, usize), Refusal>
    ensures { Does (call_rows (too_few_words (lent w1.old w2.old)) list.now)
        ((slip_file list.now (reduce_steps list.now), slip.old, slip.new)
        ∷ (short_file list.now (reduce_steps list.now), short.old, short.new)
        ∷ [])
        (answered two result) }
{
    let at = starting::start_reduce(list, w1, w2)?;
    write_both(at, w1, w2, slip, short)
}
