// The worked lists that are compared by running the calls: those that concern sizes, each weighed with the empty
// pairing; a list that no step shortens, reduced; a list whose points outgrow 20 bits, replayed; all pairs of 12 and of
// 13 cells, solved.
#![tactic(auto)]

ghost use Rattle.std.specs.Prelude.{◌+◌, ◌*◌, ◌<◌, ◌≤◌, length};

use cellfile::decode;
use checks::Refusal;

// Puts the header of a store list of n cells and m entries.
fn put_header(list: &mut [u8], n: usize, m: usize)
    requires { (4 ≤ length list.old) × (n < 2048) × (m < 8192) }
{
    let header = 1 << 28 | (n as u32) << 17 | (m as u32) << 4;
    list[..4].copy_from_slice(&header.to_be_bytes());
}

// Puts the entry at place i of a store list.
fn put_entry(list: &mut [u8], i: usize, a: usize, b: usize, points: u64)
    requires { (9 + 5 * i ≤ length list.old) × (a < 1024) × (b < 1024) × (points < 1048576) }
{
    let at = 4 + 5 * i;
    let entry = (a as u64) << 30 | (b as u64) << 20 | points;
    list[at..at + 5].copy_from_slice(&entry.to_be_bytes()[3..]);
}

// Puts the entries 0-512, 0-513, .., 0-1023, 1-512, .., of no points: m of them.
fn put_many(list: &mut [u8], m: usize)
    requires { (m ≤ 4097) × (4 + 5 * m ≤ length list.old) }
{
    for i in 0..m {
        put_entry(list, i, i / 512, 512 + i % 512, 0);
    }
}

// Puts from place `start` on all pairs of the cells from `low` to below `high`, one point each, in order: where they
// end.
fn put_all(list: &mut [u8], start: usize, low: usize, high: usize) -> usize
    requires { (low ≤ high) × (high ≤ low + 13) × (high ≤ 64) × (4 + 5 * (start + 169) ≤ length list.old) }
    ensures { result ≤ start + 169 }
{
    let mut end = start;
    for a in low..high {
        for b in a + 1..high {
            put_entry(list, end, a, b, 1);
            end += 1;
        }
    }
    end
}

// Where the answers are written, and the two buffers that every call is lent. A line that cannot be written is passed
// over.
#[derive(Drop)]
struct Worked<'a, R: Print> {
    rt: &'a R,
    a: [u64; 8192],
    b: [u64; 8192],
}

impl<R: Print> Worked<'_, R> {
    fn show_refused(&self, name: &str, refusal: Refusal) {
        let _written = println!(self.rt; "{name}: refused {}", u32::from(refusal));
    }

    // Weighs the empty pairing `none` of the list.
    fn show_weighed(&mut self, name: &str, list: &[u8], none: &[u8]) {
        match weighing::weigh(list, none, &mut self.a, &mut self.b) {
            Ok(points) => {
                let _written = println!(self.rt; "{name}: points {points}");
            }
            Err(refusal) => self.show_refused(name, refusal),
        }
    }

    // Weighs the empty pairing of a list of 1,024 cells with m entries.
    fn show_large(&mut self, name: &str, m: usize)
        requires { m ≤ 4097 }
    {
        let mut list = [0u8; 20489];
        put_header(&mut list, 1024, m);
        put_many(&mut list, m);
        self.show_weighed(name, &list[..4 + 5 * m], b"\x48\x00\x00\x00");
    }

    // Reduces the list: the lengths of the slip and of the short list.
    fn show_reduced(&mut self, name: &str, list: &[u8]) {
        let mut slip = [0u8; 64];
        let mut short = [0u8; 64];
        match reduction::reduce(list, &mut self.a, &mut self.b, &mut slip, &mut short) {
            Ok((slip_length, short_length)) => {
                let _slip = println!(self.rt; "{name}: bytes of the slip {slip_length}");
                let _short = println!(self.rt; "{name}: bytes of the short list {short_length}");
            }
            Err(refusal) => self.show_refused(name, refusal),
        }
    }

    // Replays the slip on the list: the short list, and its entries.
    fn show_replayed(&mut self, name: &str, list: &[u8], slip: &[u8]) {
        let mut short = [0u8; 64];
        match reduction::replay(list, slip, &mut self.a, &mut self.b, &mut short) {
            Ok(k) => {
                let _length = println!(self.rt; "{name}: bytes of the short list {k}");
                let _name = print!(self.rt; "{name}: short");
                for entry in short[12..].chunks_exact(8).take(k.saturating_sub(12) / 8) {
                    let e = decode::entry_at(entry, 8);
                    let _entry = print!(self.rt; " {}-{}:{}", e.a, e.b, e.points);
                }
                let _end = println!(self.rt;);
            }
            Err(refusal) => self.show_refused(name, refusal),
        }
    }

    // Solves what the empty slip leaves of the list: the pairing, and its pairs.
    fn show_solved(&mut self, name: &str, list: &[u8], empty: &[u8]) {
        let mut pairing = [0u8; 64];
        match lifting::solve(list, empty, &mut self.a, &mut self.b, &mut pairing) {
            Ok(k) => {
                let _length = println!(self.rt; "{name}: bytes of the pairing {k}");
                let _name = print!(self.rt; "{name}: pairs");
                for pair in pairing[4..].chunks_exact(3).take(k.saturating_sub(4) / 3) {
                    let p = decode::pair_at(pair);
                    let _pair = print!(self.rt; " {}-{}", p.a, p.b);
                }
                let _end = println!(self.rt;);
            }
            Err(refusal) => self.show_refused(name, refusal),
        }
    }

    // Solves the list of all pairs of the cells of each of so many sets, one point each.
    fn show_complete(&mut self, name: &str, sets: usize, cells: usize, empty: &[u8])
        requires { (sets ≤ 2) × (cells ≤ 13) }
    {
        let mut list = [0u8; 1694];
        let mut n = 0;
        let mut m = 0;
        for _set in 0..sets {
            m = put_all(&mut list, m, n, n + cells);
            n += cells;
        }
        put_header(&mut list, n, m);
        self.show_solved(name, &list[..4 + 5 * m], empty);
    }
}

fn main(rt: HostRuntime) {
    let mut worked = Worked {
        rt: &rt,
        a: [0; 8192],
        b: [0; 8192],
    };
    worked.show_weighed(
        "n 1024, cell 1023",
        b"\x18\x00\x00\x10\x00\x3F\xF0\x00\x07",
        b"\x48\x00\x00\x00",
    );
    worked.show_weighed(
        "n 1023, cell 1023",
        b"\x17\xFE\x00\x10\x00\x3F\xF0\x00\x07",
        b"\x47\xFE\x00\x00",
    );
    worked.show_weighed(
        "n 1025",
        b"\x18\x02\x00\x10\x00\x3F\xF0\x00\x07",
        b"\x48\x02\x00\x00",
    );
    worked.show_large("m 4096", 4096);
    worked.show_large("m 4097", 4097);
    worked.show_reduced(
        "all six pairs of four cells, one point each",
        b"\x10\x08\x00\x60\x00\x00\x10\x00\x01\x00\x00\x20\x00\x01\x00\x00\x30\x00\x01\
          \x00\x40\x20\x00\x01\x00\x40\x30\x00\x01\x00\x80\x30\x00\x01",
    );
    worked.show_replayed(
        "0-1:1048575, 1-2:1, 2-3:1048575, chain 1",
        b"\x10\x08\x00\x30\x00\x00\x1F\xFF\xFF\x00\x40\x20\x00\x01\x00\x80\x3F\xFF\xFF",
        b"\x30\x08\x00\x10\x0C\x01",
    );
    worked.show_complete(
        "all pairs of 12 cells, one point each",
        1,
        12,
        b"\x30\x18\x00\x00",
    );
    worked.show_complete(
        "all pairs of 13 cells, one point each",
        1,
        13,
        b"\x30\x1A\x00\x00",
    );
    worked.show_complete(
        "all pairs of 12 cells twice over, one point each",
        2,
        12,
        b"\x30\x30\x00\x00",
    );
}
