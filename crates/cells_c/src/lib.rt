// The calls for C: include/cells.h declares them. Every slice is a pointer and a length; each call answers 0 or the
// refusal's number, and on refusal leaves the numbers that it would answer unchanged. cells_entry answers 1 with them,
// or 0 and leaves them unchanged.
#![tactic(auto)]

ghost use Rattle.std.specs.Prelude.{◌≡◌, length};
ghost use Rattle.buffers.specs.Buffers.{lent, Cleared};
ghost use Rattle.weighing.specs.Weigh.{weighing};
ghost use Rattle.cellfile.specs.Answers.{written};
ghost use Rattle.reduction.specs.Calls.{replaying, reducing, replay_short, slip_file, short_file};
ghost use Rattle.starting.specs.Steps.{reduce_steps};
ghost use Rattle.lifting.specs.Calls.{solving, solve_file, lifting, lift_file, lift_origins};
ghost use Rattle.lifting.specs.Calls.{pairing as pairing_answer, pairing_file, pairing_origins};
ghost use Rattle.tidying.specs.Calls.{tidying, tidy_file};
ghost use Rattle.view.specs.Serving.{serving};
ghost use Rattle.checks.specs.Calls.{answered, one, two};
ghost use Rattle.cells_c.specs.Numbers.{value_or};

use checks::Refusal;

// The number of an answer; its value goes to `value`.
fn one_value(r: Result<u64, Refusal>, value: &mut u64) -> u32
    ensures { (result ≡ (answered one r).0) × (value.new ≡ value_or 0 value.old (answered one r)) }
{
    match r {
        Ok(v) => {
            *value = v;
            0
        }
        Err(refusal) => u32::from(refusal),
    }
}

// The same of a length.
fn one_length(r: Result<usize, Refusal>, length: &mut u64) -> u32
    ensures { (result ≡ (answered one r).0) × (length.new ≡ value_or 0 length.old (answered one r)) }
{
    one_value(r.map(|k| k as u64), length)
}

// The number of an answer; its lengths go to `first` and `second`.
fn two_lengths(r: Result<(usize, usize), Refusal>, first: &mut u64, second: &mut u64) -> u32
    ensures { (result ≡ (answered two r).0) × (first.new ≡ value_or 0 first.old (answered two r))
        × (second.new ≡ value_or 1 second.old (answered two r)) }
{
    match r {
        Ok((i, j)) => {
            *first = i as u64;
            *second = j as u64;
            0
        }
        Err(refusal) => u32::from(refusal),
    }
}

#[unsafe(no_mangle)]
pub extern "C" fn cells_weigh(
    list: &[u8],
    pairing: &[u8],
    work_a: &mut [u64],
    work_b: &mut [u64],
    points: &mut u64,
) -> u32
    ensures answer { result ≡ (weighing list.now pairing.now
        (lent work_a.old work_b.old)).0 }
    ensures values { points.new ≡ value_or 0 points.old
        (weighing list.now pairing.now (lent work_a.old work_b.old)) }
    ensures cleared { Cleared work_a.old work_a.new
        × Cleared work_b.old work_b.new }
{
    one_value(weighing::weigh(list, pairing, work_a, work_b), points)
}

#[unsafe(no_mangle)]
pub extern "C" fn cells_replay(
    list: &[u8],
    slip: &[u8],
    work_a: &mut [u64],
    work_b: &mut [u64],
    short: &mut [u8],
    short_len: &mut u64,
) -> u32
    ensures answer { result ≡ (replaying list.now slip.now
        (lent work_a.old work_b.old) (length short.old)).0 }
    ensures values { short_len.new ≡ value_or 0 short_len.old
        (replaying list.now slip.now
        (lent work_a.old work_b.old) (length short.old)) }
    ensures output { short.new ≡ written (replaying list.now slip.now
        (lent work_a.old work_b.old) (length short.old)).0
        (replay_short list.now slip.now) short.old }
    ensures cleared { Cleared work_a.old work_a.new
        × Cleared work_b.old work_b.new }
{
    let r = reduction::replay(list, slip, work_a, work_b, short);
    one_length(r, short_len)
}

#[unsafe(no_mangle)]
pub extern "C" fn cells_reduce(
    list: &[u8],
    work_a: &mut [u64],
    work_b: &mut [u64],
    slip: &mut [u8],
    short: &mut [u8],
    slip_len: &mut u64,
    short_len: &mut u64,
) -> u32
    ensures answer { result ≡ (reducing list.now (lent work_a.old work_b.old)
        (length slip.old) (length short.old)).0 }
    ensures values { (slip_len.new ≡ value_or 0 slip_len.old
        (reducing list.now (lent work_a.old work_b.old)
        (length slip.old) (length short.old)))
        × (short_len.new ≡ value_or 1 short_len.old
        (reducing list.now (lent work_a.old work_b.old)
        (length slip.old) (length short.old))) }
    ensures outputs { (slip.new ≡ written (reducing list.now
        (lent work_a.old work_b.old)
        (length slip.old) (length short.old)).0
        (slip_file list.now (reduce_steps list.now)) slip.old)
        × (short.new ≡ written (reducing list.now
        (lent work_a.old work_b.old)
        (length slip.old) (length short.old)).0
        (short_file list.now (reduce_steps list.now)) short.old) }
    ensures cleared { Cleared work_a.old work_a.new
        × Cleared work_b.old work_b.new }
{
    let r = reduction::reduce(list, work_a, work_b, slip, short);
    two_lengths(r, slip_len, short_len)
}

#[unsafe(no_mangle)]
pub extern "C" fn cells_solve(
    list: &[u8],
    slip: &[u8],
    work_a: &mut [u64],
    work_b: &mut [u64],
    pairing: &mut [u8],
    pairing_len: &mut u64,
) -> u32
    ensures answer { result ≡ (solving list.now slip.now
        (lent work_a.old work_b.old) (length pairing.old)).0 }
    ensures values { pairing_len.new ≡ value_or 0 pairing_len.old
        (solving list.now slip.now
        (lent work_a.old work_b.old) (length pairing.old)) }
    ensures output { pairing.new ≡ written (solving list.now slip.now
        (lent work_a.old work_b.old) (length pairing.old)).0
        (solve_file list.now slip.now) pairing.old }
    ensures cleared { Cleared work_a.old work_a.new
        × Cleared work_b.old work_b.new }
{
    let r = lifting::solve(list, slip, work_a, work_b, pairing);
    one_length(r, pairing_len)
}

#[unsafe(no_mangle)]
pub extern "C" fn cells_lift(
    list: &[u8],
    slip: &[u8],
    pairing: &[u8],
    work_a: &mut [u64],
    work_b: &mut [u64],
    lifted: &mut [u8],
    origins: &mut [u8],
    lifted_len: &mut u64,
    origins_len: &mut u64,
) -> u32
    ensures answer { result ≡ (lifting list.now slip.now pairing.now
        (lent work_a.old work_b.old) (length lifted.old)
        (length origins.old)).0 }
    ensures values { (lifted_len.new ≡ value_or 0 lifted_len.old
        (lifting list.now slip.now pairing.now
        (lent work_a.old work_b.old) (length lifted.old)
        (length origins.old)))
        × (origins_len.new ≡ value_or 1 origins_len.old
        (lifting list.now slip.now pairing.now
        (lent work_a.old work_b.old) (length lifted.old)
        (length origins.old))) }
    ensures outputs { (lifted.new
        ≡ written (lifting list.now slip.now pairing.now
        (lent work_a.old work_b.old) (length lifted.old)
        (length origins.old)).0
        (lift_file list.now slip.now pairing.now) lifted.old)
        × (origins.new
        ≡ written (lifting list.now slip.now pairing.now
        (lent work_a.old work_b.old) (length lifted.old)
        (length origins.old)).0
        (lift_origins list.now slip.now pairing.now) origins.old) }
    ensures cleared { Cleared work_a.old work_a.new
        × Cleared work_b.old work_b.new }
{
    let r = lifting::lift(list, slip, pairing, work_a, work_b, lifted, origins);
    two_lengths(r, lifted_len, origins_len)
}

#[unsafe(no_mangle)]
pub extern "C" fn cells_pair(
    list: &[u8],
    work_a: &mut [u64],
    work_b: &mut [u64],
    pairing: &mut [u8],
    origins: &mut [u8],
    pairing_len: &mut u64,
    origins_len: &mut u64,
) -> u32
    ensures answer { result ≡ (pairing_answer list.now
        (lent work_a.old work_b.old) (length pairing.old)
        (length origins.old)).0 }
    ensures values { (pairing_len.new ≡ value_or 0 pairing_len.old
        (pairing_answer list.now
        (lent work_a.old work_b.old) (length pairing.old)
        (length origins.old)))
        × (origins_len.new ≡ value_or 1 origins_len.old
        (pairing_answer list.now
        (lent work_a.old work_b.old) (length pairing.old)
        (length origins.old))) }
    ensures outputs { (pairing.new ≡ written (pairing_answer list.now
        (lent work_a.old work_b.old) (length pairing.old)
        (length origins.old)).0
        (pairing_file list.now) pairing.old)
        × (origins.new ≡ written (pairing_answer list.now
        (lent work_a.old work_b.old) (length pairing.old)
        (length origins.old)).0
        (pairing_origins list.now) origins.old) }
    ensures cleared { Cleared work_a.old work_a.new
        × Cleared work_b.old work_b.new }
{
    let r = lifting::pair(list, work_a, work_b, pairing, origins);
    two_lengths(r, pairing_len, origins_len)
}

#[unsafe(no_mangle)]
pub extern "C" fn cells_tidy(
    raw: &[u8],
    work_a: &mut [u64],
    work_b: &mut [u64],
    store: &mut [u8],
    store_len: &mut u64,
) -> u32
    ensures answer { result ≡ (tidying raw.now
        (lent work_a.old work_b.old) (length store.old)).0 }
    ensures values { store_len.new ≡ value_or 0 store_len.old
        (tidying raw.now
        (lent work_a.old work_b.old) (length store.old)) }
    ensures output { store.new ≡ written (tidying raw.now
        (lent work_a.old work_b.old) (length store.old)).0
        (tidy_file raw.now) store.old }
    ensures cleared { Cleared work_a.old work_a.new
        × Cleared work_b.old work_b.new }
{
    let r = tidying::tidy(raw, work_a, work_b, store);
    one_length(r, store_len)
}

#[unsafe(no_mangle)]
pub extern "C" fn cells_entry(
    list: &[u8],
    place: u64,
    a: &mut u64,
    b: &mut u64,
    points: &mut u64,
) -> u32
    ensures answer { result ≡ (serving list.now place).0 }
    ensures values { (a.new ≡ value_or 0 a.old (serving list.now place))
        × (b.new ≡ value_or 1 b.old (serving list.now place))
        × (points.new ≡ value_or 2 points.old (serving list.now place)) }
{
    let Some(e) = view::entry_of(list, place as usize) else {
        return 0;
    };
    *a = e.a as u64;
    *b = e.b as u64;
    *points = e.points;
    1
}
