// Inner: writes a file into an output. Its first bytes are the file, the others are unchanged. The caller has found
// that the output has room. Records come as numbers, of which the low bytes count: those of a plain file as words,
// those of a short list as rows and cells in the first work buffer.
ghost use Rattle.std.specs.Prelude.{◌≡◌, ◌∷◌, [], map, ◌+◌, ◌*◌, ◌/◌, ◌%◌, ◌≤◌, ◌<◌, length, get_or, ℕ, List};
ghost use Rattle.buffers.specs.Map.{unit};
ghost use Rattle.cellfile.specs.Bytes.{bytes};
ghost use Rattle.cellfile.specs.Fields.{size, packed};
ghost use Rattle.cellfile.specs.Files.{Layout, header, short_list, write_file, file_length, onto, as_fields};
ghost use Rattle.cellfile.specs.Kinds.{layout_of};
ghost use Rattle.cellfile.specs.Words.{word_bytes, file_of, Plain, Writable, OfRows, RowsFit, points_room};

use crate::format::{CARRIED_BYTES, HEADER_BYTES, Kind, SHORT_START};
use buffers::map;

const KIND_UNIT: u64 = 268435456;

const CELLS_UNIT: u64 = 131072;

const COUNT_UNIT: u64 = 16;

// The points of an entry of a short list are below this; its cells stand above them, the lower one above the other.
const POINTS_ROOM: u64 = 17592186044416;

const CELL_A: u64 = map::CELL_FIELD * POINTS_ROOM;

// The last `size` bytes of the number, most significant first.
fn put_number(v: u64, size: usize, out: &mut [u8])
    requires { (size ≤ 8) × (size ≤ length out.old) }
    ensures { out.new ≡ onto (bytes size v) out.old }
{
    out[..size].copy_from_slice(&v.to_be_bytes()[8 - size..]);
}

// The last `size` bytes of each of `count` numbers.
fn put_numbers<F: Fn(usize) -> u64>(count: usize, size: usize, number: F, out: &mut [u8])
    requires room { (size * count ≤ length out.old) × (size ≤ 8) × (count < 8192) }
    requires numbers { (i : ℕ) → i < count → F.pre number i }
    ensures { (ws : List ℕ) → count ≡ length ws
        → ((i v : ℕ) → i < count → F.post number i v → v ≡ get_or ws i 0)
        → out.new ≡ onto (word_bytes size ws) out.old }
{
    for i in 0..count {
        put_number(number(i), size, &mut out[size * i..]);
    }
}

fn put_header(kind: Kind, n: usize, m: usize, out: &mut [u8])
    requires { (n < 2048) × (m < 8192) × (4 ≤ length out.old) }
    ensures { out.new ≡ onto (bytes 4 (packed header ((layout_of kind).kind ∷ n ∷ m ∷ 0 ∷ []))) out.old }
{
    put_number(
        u64::from(kind) * KIND_UNIT + n as u64 * CELLS_UNIT + m as u64 * COUNT_UNIT,
        HEADER_BYTES,
        out,
    );
}

// A file of that kind of n cells, whose records are the last bytes of the words: that of every layout with that kind and
// size of a record, and nothing between header and records.
pub fn write_words(kind: Kind, n: usize, words: &[u64], out: &mut [u8])
    requires { (l : Layout) × Plain l (layout_of kind).kind (size (layout_of kind).entry)
        × Writable l n words.now out.old }
    ensures { (l : Layout) → Plain l (layout_of kind).kind (size (layout_of kind).entry)
        → out.new ≡ onto (write_file l (file_of l n [] words.now)) out.old }
{
    put_header(kind, n, words.len(), out);
    put_numbers(
        words.len(),
        kind.record_bytes(),
        |i| words[i],
        &mut out[HEADER_BYTES..],
    );
}

// The number of the record of a short list whose entry is the row x and the cell a. The test always holds: without it
// the compiler sees which field each byte is of, and writes the bytes one by one instead of as one word.
fn short_word(x: u64, a: u64) -> u64
    requires { (a < 1024) × (x % unit < points_room) }
    ensures { result ≡ a * 1024 * points_room + x / unit * points_room + x % unit }
{
    if a < map::CELL_FIELD {
        return a * CELL_A + x / map::POINTS_UNIT * POINTS_ROOM + x % map::POINTS_UNIT;
    }
    0
}

// A short list of n cells with its carried points, whose entries are the first m rows.
pub fn write_short(n: usize, carried: u64, w1: &[u64], m: usize, out: &mut [u8])
    requires { RowsFit m w1.now × (n < 2048) × (file_length short_list n m ≤ length out.old) }
    ensures { OfRows m w1.now (λ es. out.new
        ≡ onto (write_file short_list (record { cells = n; extra = carried ∷ []; entries = map as_fields es }))
        out.old) }
{
    put_header(Kind::ShortList, n, m, out);
    put_number(carried, CARRIED_BYTES, &mut out[HEADER_BYTES..]);
    put_numbers(
        m,
        Kind::ShortList.record_bytes(),
        |i| short_word(w1[i], w1[map::CELL_WORDS + i]),
        &mut out[SHORT_START..],
    );
}
