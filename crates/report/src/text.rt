// The printed text, made by one line behind the other.
ghost use Rattle.std.specs.Prelude.{◌≡◌, ◌++◌, ◌+◌, ◌*◌, ◌<◌, ◌≤◌, length};
ghost use Rattle.arrayvec.specs.ArrayString.{array_string_len};
ghost use Rattle.report.specs.Printed.{numbers};

use arrayvec::ArrayString;

// The longest text has fewer bytes.
pub type Text = ArrayString<36864>;

// Puts a line of the word and the numbers behind the text.
pub fn line(text: &mut Text, word: &str, values: &[u64])
    requires { array_string_len text.old + length word.now + 21 * length values.now < 36864 }
    ensures bytes { text.new.bytes ≡ text.old.bytes ++ (word.now ++ numbers values.now) }
    ensures few { array_string_len text.new
        ≤ array_string_len text.old + length word.now + 21 * length values.now + 1 }
{
    let mut digits = itoa::Buffer::new();
    text.push_str(word);
    for &v in values {
        text.push_str(" ");
        text.push_str(digits.format(v));
    }
    text.push_str("\n");
}
