// Inner: single words of the buffers.
ghost use Rattle.std.specs.Prelude.{◌≡◌, ◌+◌, ◌*◌, ◌<◌, ◌≤◌, length, get_or, set};
ghost use Rattle.buffers.specs.Map.{at_cells, at_sums, at_lasts};
ghost use Rattle.slots.specs.Slots.{key, link_of, name_of, Added};

use buffers::map;

// A key in the sum of a cell: one, above the partner, above the slot.
pub const KEY_ONE: u64 = 70368744177664;

pub const KEY_PARTNER: u64 = 16777216;

pub const PARTNERS: u64 = KEY_ONE / KEY_PARTNER;

// The links of a slot above its cells.
const LOW_LINK: u64 = 1048576;

const HIGH_LINK: u64 = 8589934592;

const LINKS: u64 = HIGH_LINK / LOW_LINK;

pub fn key_of(partner: usize, slot: usize) -> u64
    requires { (partner < 1024) × (slot < 4096) }
    ensures { result ≡ key partner slot }
{
    KEY_ONE + partner as u64 * KEY_PARTNER + slot as u64
}

// The cell word of a slot: its cells and its links.
pub fn cell_word(a: usize, b: usize, low_link: u64, high_link: u64) -> u64
    requires { (a < 1024) × (b < 1024) × (low_link ≤ 4096) × (high_link ≤ 4096) }
    ensures { result ≡ a + b * 1024 + low_link * 1048576 + high_link * 8589934592 }
{
    a as u64 + b as u64 * map::CELL_FIELD + low_link * LOW_LINK + high_link * HIGH_LINK
}

// The slot that a word names: its number and 1, or 0 for none.
pub fn slot_of(name: u64) -> Option<usize>
    ensures { name_of result ≡ name }
{
    (name as usize).checked_sub(1)
}

// The link of slot i for its cell c.
pub fn link(w1: &[u64], i: usize, c: usize) -> Option<usize>
    requires { (8192 ≤ length w1.now) × (i < 4096) }
    ensures { name_of result ≡ link_of w1.now i c }
{
    let x = w1[map::CELL_WORDS + i];
    if (x % map::CELL_FIELD) as usize == c {
        return slot_of(x / LOW_LINK % LINKS);
    }
    slot_of(x / HIGH_LINK)
}

// The keys of slot i go into the sums of its cells.
pub fn add_keys(w2: &mut [u64], i: usize, a: usize, b: usize)
    requires { (8192 ≤ length w2.old) × (i < 4096) × (a < b) × (b < 1024)
        × (get_or w2.old (at_sums + a) 0 < 9223372036854775808)
        × (get_or w2.old (at_sums + b) 0 < 9223372036854775808) }
    ensures { Added w2.old w2.new i a b }
{
    w2[map::SUMS + a] += key_of(b, i);
    w2[map::SUMS + b] += key_of(a, i);
}

// The keys of slot i go from the sums of its cells.
pub fn take_keys(w2: &mut [u64], i: usize, a: usize, b: usize)
    requires { (8192 ≤ length w2.old) × (i < 4096) × (a < b) × (b < 1024)
        × (key b i ≤ get_or w2.old (at_sums + a) 0) × (key a i ≤ get_or w2.old (at_sums + b) 0) }
    ensures { Added w2.new w2.old i a b }
{
    w2[map::SUMS + a] -= key_of(b, i);
    w2[map::SUMS + b] -= key_of(a, i);
}

// Slot i is the last of the cells a and b.
pub fn set_lasts(w2: &mut [u64], i: usize, a: usize, b: usize)
    requires { (8192 ≤ length w2.old) × (i < 4096) × (a < 1024) × (b < 1024) }
    ensures { w2.new ≡ set (set w2.old (at_lasts + a) (i + 1)) (at_lasts + b) (i + 1) }
{
    w2[map::LASTS + a] = i as u64 + 1;
    w2[map::LASTS + b] = i as u64 + 1;
}

// Slot i has the weight w and the cell word x.
pub fn set_slot(w1: &mut [u64], i: usize, w: u64, x: u64)
    requires { (8192 ≤ length w1.old) × (i < 4096) }
    ensures { w1.new ≡ set (set w1.old i w) (at_cells + i) x }
{
    w1[i] = w;
    w1[map::CELL_WORDS + i] = x;
}
