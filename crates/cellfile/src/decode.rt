// Inner: reads a file. The fields of a record at the start of a part of it, where missing bytes read as 0.
ghost use Rattle.std.specs.Prelude.{◌≡◌, ◌<◌, ◌≤◌, length, get_or};
ghost use Rattle.cellfile.specs.Bytes.{number};
ghost use Rattle.cellfile.specs.Files.{slip, pairing};
ghost use Rattle.cellfile.specs.Reads.{HeaderRead, EntryAt, RecordAt, step_fields, StepFits};
ghost use Rattle.cellfile.specs.Reads.{pair_entry_fields, PairFits};

use crate::format::{HEADER_BYTES, Kind};
pub use crate::records::{Shape, shape_of};

// The fields of a header.
#[derive(Clone, Copy)]
pub struct Header {
    // As the file says, which may be no kind.
    pub kind: u64,
    pub n: usize,
    pub m: usize,
    pub zeros: u64,
}

// An entry of a list.
#[derive(Clone, Copy)]
pub struct Entry {
    pub a: usize,
    pub b: usize,
    pub points: u64,
}

// An entry of a slip.
#[derive(Clone, Copy)]
pub struct SlipStep {
    // As the slip says, which may be no rule.
    pub rule: u64,
    pub cell: usize,
}

// An entry of a pairing.
#[derive(Clone, Copy)]
pub struct PairEntry {
    pub a: usize,
    pub b: usize,
    pub zeros: u64,
}

// Powers of two, by their bits.
const BITS_4: u64 = 16;

const BITS_6: u64 = 64;

const BITS_10: u64 = 1024;

const BITS_11: u64 = 2048;

const BITS_13: u64 = 8192;

const BITS_14: u64 = 16384;

const BITS_17: u64 = 131072;

const BITS_28: u64 = 268435456;

pub fn byte_at(s: &[u8], i: usize) -> u64
    ensures { (result ≡ get_or s.now i 0) × (result < 256) }
{
    s.get(i).copied().map_or(0, u64::from)
}

// The number that the first `size` bytes write.
pub fn number_at(s: &[u8], size: usize) -> u64
    requires { size ≤ 8 }
    ensures { result ≡ number size s.now }
{
    let mut v: u64 = 0;
    for i in 0..size {
        v = v * 256 + byte_at(s, i);
    }
    v
}

pub fn header_at(s: &[u8]) -> Header
    ensures { HeaderRead s.now result }
{
    let v = number_at(s, HEADER_BYTES);
    Header {
        kind: v / BITS_28 % BITS_4,
        n: (v / BITS_17 % BITS_11) as usize,
        m: (v / BITS_4 % BITS_13) as usize,
        zeros: v % BITS_4,
    }
}

// An entry of so many bytes: two cells of 10 bits, and points in the bits that are left. Its bytes are there, so that
// none of them has to be looked for.
pub fn entry_at(s: &[u8], bytes: usize) -> Entry
    requires { (3 ≤ bytes) × (bytes ≤ 8) × (bytes ≤ length s.now) }
    ensures { EntryAt bytes s.now result }
{
    let v = number_at(&s[..bytes], bytes);
    let points = 8 * bytes - 20;
    let key = v >> points;
    Entry {
        a: (key / BITS_10 % BITS_10) as usize,
        b: (key % BITS_10) as usize,
        points: v % (1 << points),
    }
}

pub fn step_at(s: &[u8]) -> SlipStep
    ensures { RecordAt slip step_fields StepFits s.now result }
{
    let v = number_at(s, Kind::Slip.record_bytes());
    SlipStep {
        rule: v / BITS_10 % BITS_6,
        cell: (v % BITS_10) as usize,
    }
}

pub fn pair_at(s: &[u8]) -> PairEntry
    ensures { RecordAt pairing pair_entry_fields PairFits s.now result }
{
    let v = number_at(s, Kind::Pairing.record_bytes());
    PairEntry {
        a: (v / BITS_14 % BITS_10) as usize,
        b: (v / BITS_4 % BITS_10) as usize,
        zeros: v % BITS_4,
    }
}
