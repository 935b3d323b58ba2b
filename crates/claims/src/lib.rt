// What the calls promise together, of the files that they read and write: specs/Demand and specs/Claims, with the laws
// in proofs/. One function, private and for no caller but the reader: replay, lift and weigh on one list, slip and
// pairing, and demand 3 of what they themselves answer and write (specs/Asking).
#![tactic(auto)]

ghost use Rattle.std.specs.Prelude.{◌≡◌, length};
ghost use Rattle.buffers.specs.Buffers.{lent, Cleared};
ghost use Rattle.cellfile.specs.Answers.{written};
ghost use Rattle.checks.specs.Calls.{answered};
ghost use Rattle.reduction.specs.Calls.{replaying, replay_short};
ghost use Rattle.lifting.specs.Calls.{lift_file, lift_origins};
ghost use Rattle.claims.specs.Asking.{four, lifts, asking, Tells};

use checks::Refusal;

// The lengths that replay and lift answer, and the points that weigh does.
#[derive(Clone, Copy)]
pub struct Asked {
    pub short: usize,
    pub lifted: usize,
    pub origins: usize,
    pub points: u64,
}

// Replays the slip, lifts the pairing and weighs what is lifted; or the refusal of the first call that refuses. Every
// word of the work buffers is zero afterwards.
fn ask(
    list: &[u8],
    slip: &[u8],
    pairing: &[u8],
    work_a: &mut [u64],
    work_b: &mut [u64],
    short: &mut [u8],
    lifted: &mut [u8],
    origins: &mut [u8],
) -> Result<Asked, Refusal>
    ensures answer { answered four result ≡ asking list.now slip.now pairing.now
        (lent work_a.old work_b.old) (length short.old)
        (length lifted.old) (length origins.old) }
    ensures outputs { (short.new ≡ written (replaying list.now slip.now
        (lent work_a.old work_b.old) (length short.old)).0
        (replay_short list.now slip.now) short.old)
        × (lifted.new ≡ written (lifts list.now slip.now pairing.now
        (lent work_a.old work_b.old) (length short.old)
        (length lifted.old) (length origins.old)).0
        (lift_file list.now slip.now pairing.now) lifted.old)
        × (origins.new ≡ written (lifts list.now slip.now pairing.now
        (lent work_a.old work_b.old) (length short.old)
        (length lifted.old) (length origins.old)).0
        (lift_origins list.now slip.now pairing.now) origins.old) }
    ensures demand { Tells list.now slip.now pairing.now
        short.new lifted.new origins.new result }
    ensures cleared { Cleared work_a.old work_a.new
        × Cleared work_b.old work_b.new }
{
    let i = reduction::replay(list, slip, work_a, work_b, short)?;
    let (j, o) = lifting::lift(list, slip, pairing, work_a, work_b, lifted, origins)?;
    let points = weighing::weigh(list, &lifted[..j], work_a, work_b)?;
    Ok(Asked {
        short: i,
        lifted: j,
        origins: o,
        points,
    })
}
