// The text that the program prints: the call print. See specs/Printed.
#![tactic(auto)]

mod pairs;
mod text;

ghost use Rattle.std.specs.Prelude.{◌≡◌, [], ◌∷◌, take, MatchResult};
ghost use Rattle.io.specs.Counts.{IsPrefixLen};
ghost use Rattle.checks.specs.Calls.{number};
ghost use Rattle.lifting.specs.Calls.{pairing_file};
ghost use Rattle.report.specs.Printed.{line as line_of, made, printed};
ghost use Rattle.report.specs.Writing.{ReducedThere};

use cellfile::decode;
use cellfile::format::{CARRIED_BYTES, HEADER_BYTES, Kind, SHORT_START};
use cellfile::records::{Entries, Records};
use checks::Refusal;
use text::Text;

// The lines of an accepted list, from what reduce and pair wrote of it.
fn print_made(list: &[u8], slip_length: usize, short: &[u8], pairing: &[u8], text: &mut Text)
    requires { ReducedThere list.now slip_length short.now × (pairing.now ≡ pairing_file list.now)
        × (text.old.bytes ≡ []) }
    ensures { text.new.bytes ≡ made list.now }
{
    let h = decode::header_at(list);
    let entries = Entries::new(list, h.n, h.m);
    let pairs = Records::new(pairing, decode::header_at(pairing).m);
    let steps = (slip_length - HEADER_BYTES) / Kind::Slip.record_bytes();
    let left = (short.len() - SHORT_START) / Kind::ShortList.record_bytes();
    let carried = decode::number_at(&short[HEADER_BYTES..], CARRIED_BYTES);
    text::line(text, "steps", &[steps as u64]);
    text::line(text, "carried", &[carried]);
    text::line(text, "short", &[left as u64]);
    let total = pairs::pair_lines(&entries, &pairs, text);
    text::line(text, "total", &[total]);
}

// Reduces and pairs the list in buffers that are long enough, and makes its text, or tells the refusal.
fn print_paired(list: &[u8], text: &mut Text) -> Result<(), Refusal>
    requires { text.old.bytes ≡ [] }
    ensures { MatchResult result (λ _. text.new.bytes ≡ printed list.now)
        (λ refusal. (text.new.bytes ≡ []) × (line_of "refused" (number refusal ∷ []) ≡ printed list.now)) }
{
    let mut work_a = [0u64; 8192];
    let mut work_b = [0u64; 8192];
    let mut slip = [0u8; 2052];
    let mut short = [0u8; 32780];
    let mut pairing = [0u8; 1540];
    let mut origins = [0u8; 2564];
    let (slip_length, short_length) = reduction::reduce(
        list,
        &mut work_a,
        &mut work_b,
        &mut slip,
        &mut short,
    )?;
    let (length, _) = lifting::pair(list, &mut work_a, &mut work_b, &mut pairing, &mut origins)?;
    print_made(
        list,
        slip_length,
        &short[..short_length],
        &pairing[..length],
        text,
    );
    Ok(())
}

// Puts what the program prints of the list at the start of the text: its length.
pub fn print(list: &[u8], text: &mut [u8; 36864]) -> usize
    ensures fits { IsPrefixLen result text.new }
    ensures text { take result text.new ≡ printed list.now }
{
    let mut lines = Text::new();
    if let Err(refusal) = print_paired(list, &mut lines) {
        text::line(&mut lines, "refused", &[u64::from(u32::from(refusal))]);
    }
    let n = lines.len();
    text[..n].copy_from_slice(lines.as_str().as_bytes());
    n
}
