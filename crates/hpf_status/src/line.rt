//! A printed line, put together on the stack.

ghost use Rattle.std.specs.Prelude.{◌≡◌, ◌+◌, ◌≤◌, ◌++◌, length, decimal};
ghost use Rattle.arrayvec.specs.ArrayString.{array_string_len};

use arrayvec::ArrayString;
use itoa::Buffer;

/// The most bytes that a line has.
pub const LONGEST: usize = 160;

/// A printed line.
pub type Line = ArrayString<LONGEST>;

/// A line that begins with this text.
pub fn plain(text: &str) -> Line
    requires { length text.now ≤ LONGEST }
    ensures { result.bytes ≡ text.now }
{
    let mut line = Line::new();
    line.push_str(text);
    line
}

/// Appends the number in decimal.
pub fn push_number(line: &mut Line, number: u64)
    requires { array_string_len line.old + 20 ≤ LONGEST }
    ensures bytes { line.new.bytes ≡ line.old.bytes ++ decimal number }
    ensures len { array_string_len line.new ≤ array_string_len line.old + 20 }
{
    let mut digits = Buffer::new();
    line.push_str(digits.format(number));
}
