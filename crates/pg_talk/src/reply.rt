//! What a line that was heard says.
ghost use Rattle.std.specs.Prelude.{◌≡◌};
ghost use Rattle.pg_talk.specs.Reply.{is_blank, trimmed, trimmed_start, trimmed_end, said_number};

use pg_base::SPACE;
use pg_text::number;

/// Whether the byte is a space, a tab, or a carriage return.
fn is_blank(b: u8) -> bool
    ensures { result ≡ is_blank b }
{
    b == SPACE || b == b'\t' || b == b'\r'
}

/// The text without the blank bytes at its beginning.
fn trimmed_start(text: &[u8]) -> &[u8]
    ensures { result.now ≡ trimmed_start text.now }
{
    match text {
        [first, others @ ..] if is_blank(*first) => trimmed_start(others),
        _ => text,
    }
}

/// The text without the blank bytes at its end.
fn trimmed_end(text: &[u8]) -> &[u8]
    ensures { result.now ≡ trimmed_end text.now }
{
    match text {
        [others @ .., last] if is_blank(*last) => trimmed_end(others),
        _ => text,
    }
}

/// The text of a line: its bytes without the blank ones at both ends.
pub fn trimmed(line: &[u8]) -> &[u8]
    ensures { result.now ≡ trimmed line.now }
{
    trimmed_end(trimmed_start(line))
}

/// The number that a line says, without blank bytes around it; none where it says none.
pub fn said_number(line: &[u8]) -> Option<u32>
    ensures { result ≡ said_number line.now }
{
    number(trimmed(line))
}
