// The lines of a pairing's pairs with their points in the list: see specs/Writing.
ghost use Rattle.std.specs.Prelude.{◌≡◌, ◌++◌, ◌+◌, ◌*◌, ◌<◌, ◌≤◌, length};
ghost use Rattle.arrayvec.specs.ArrayString.{array_string_len};
ghost use Rattle.matching.specs.Listed.{total};
ghost use Rattle.cellfile.specs.Files.{entries_all, pairs_of};
ghost use Rattle.report.specs.Printed.{pair_lines as lines, with_points};
ghost use Rattle.report.specs.Writing.{LinesThere};

use crate::text::{self, Text};
use cellfile::decode::PairEntry;
use cellfile::records::{Entries, Records};
use checks;
use checks::Match;

// Puts the lines of the pairs behind the text, with their points in the list: the sum of the points. Both files ascend,
// so each is passed once.
pub fn pair_lines(entries: &Entries, pairs: &Records<'_, PairEntry>, text: &mut Text) -> u64
    requires { LinesThere entries.now.file.now pairs.now.file.now
        × (array_string_len text.old + 68 * pairs.now.count < 36864) }
    ensures lines { text.new.bytes ≡ text.old.bytes
        ++ lines (with_points (entries_all entries.now.file.now) (pairs_of pairs.now.file.now)) }
    ensures few { array_string_len text.new ≤ array_string_len text.old + 68 * pairs.now.count }
    ensures total { result ≡ total (with_points (entries_all entries.now.file.now) (pairs_of pairs.now.file.now)) }
{
    let mut total = 0;
    let mut i = 0;
    for j in 0..pairs.count {
        let p = pairs.get(j);
        let Some(Match { points, next }) = checks::seek(entries, i, p.a, p.b) else {
            unreachable!()
        };
        text::line(text, "pair", &[p.a as u64, p.b as u64, points]);
        total += points;
        i = next;
    }
    total
}
