//! A text of one line, which takes no memory.
ghost use Rattle.std.specs.Prelude.{◌≡◌, ◌+◌, ◌≤◌, ◌++◌, decimal};
ghost use Rattle.arrayvec.specs.ArrayString.{array_string_len};

use arrayvec::ArrayString;
use itoa::Buffer;

/// How many bytes a text may have.
pub const ROOM: usize = 64;

/// A text with room for `ROOM` bytes.
pub type Line = ArrayString<ROOM>;

/// Adds a number to a text, in decimal digits.
#[tactic(auto, using(crate::proofs::Digits::short))]
pub(crate) fn push_number(line: &mut Line, number: u32)
    requires { array_string_len line.old + 10 ≤ ROOM }
    ensures bytes { line.new.bytes ≡ line.old.bytes ++ decimal number }
    ensures len { array_string_len line.new ≤ array_string_len line.old + 10 }
{
    let mut buffer = Buffer::new();
    line.push_str(buffer.format(number));
}
