//! Lines of at most 384 bytes, which take no memory.

ghost use Rattle.std.specs.Prelude.{◌≡◌, ◌≤◌, ◌+◌, ◌++◌, length, decimal};
ghost use Rattle.arrayvec.specs.ArrayString.{array_string_len};

use arrayvec::ArrayString;
use itoa::{Buffer, Integer};

/// A line in the making.
pub type Line = ArrayString<384>;

/// A line that has this text.
pub fn line_of(text: &str) -> Line
    requires { length text.now ≤ 300 }
    ensures text { result.bytes ≡ text.now }
    ensures short { array_string_len result ≤ 300 }
{
    let mut line = Line::new();
    line.push_str(text);
    line
}

/// A line that has a number between two texts.
pub fn numbered_line(before: &str, number: u64, after: &str) -> Line
    requires { length before.now + length after.now ≤ 60 }
    ensures text { result.bytes ≡ before.now ++ decimal number ++ after.now }
    ensures short { array_string_len result ≤ 80 }
{
    let mut line = Line::new();
    line.push_str(before);
    push_numbered(&mut line, number, after);
    line
}

/// Puts a number and a text behind it at the end of a line.
pub fn push_numbered(line: &mut Line, number: u64, after: &str)
    requires { array_string_len line.old + length after.now ≤ 300 }
    ensures text { line.new.bytes ≡ line.old.bytes ++ decimal number ++ after.now }
    ensures short { array_string_len line.new ≤ array_string_len line.old + length after.now + 20 }
{
    let mut buffer = Buffer::new();
    line.push_str(buffer.format(number));
    line.push_str(after);
}

/// Puts a whole number of any width, which may be below 0, and a text behind it at the end of a line.
pub fn push_integer<I: Integer>(line: &mut Line, number: I, behind: &str)
    requires { array_string_len line.old + length behind.now ≤ 300 }
    ensures text { line.new.bytes ≡ line.old.bytes ++ I.text number ++ behind.now }
    ensures short { array_string_len line.new ≤ array_string_len line.old + length behind.now + 40 }
{
    let mut buffer = Buffer::new();
    line.push_str(buffer.format(number));
    line.push_str(behind);
}
