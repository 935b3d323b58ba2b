// Reads a store list from standard input and prints its pairing. See crate report for what it prints.
#![tactic(auto)]

use arrayvec::ArrayVec;
use std::io::{self, Read};

// One byte more than the longest list has.
const MOST_READ: usize = 20485;

// Where a read fails, what was read before it is the list; where a write fails, nothing more is printed.
fn main(rt: HostRuntime) {
    let mut list = ArrayVec::<u8, MOST_READ>::new();
    let _read = io::copy(&mut rt.stdin().take(MOST_READ as u64), &mut list);
    let mut text = [0u8; 36864];
    let n = report::print(&list, &mut text);
    let _written = rt.write_all(&text[..n]);
}
