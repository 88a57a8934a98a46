//! Which form the first line of a text names.
ghost use Rattle.std.specs.Prelude.{◌≡◌, ◌++◌, List, ℕ, take, IfOk};
ghost use Rattle.pg_evidence.specs.Evidence.{has_images};
ghost use Rattle.pg_evidence.specs.Incoming.{may_have_images};
ghost use Rattle.pg_evidence.specs.declared.first_line.TheConstants.{FIRST_LINE_BYTES};

use pg_base::Memory;
use pg_text::Lines;

/// How many bytes show whether a text has images: those of its first line, with the line feed.
const FIRST_LINE_BYTES: usize = 15;

/// Whether a text is that of a certificate with images, by its first line.
pub(crate) fn has_images(text: &[u8]) -> bool
    ensures { result ≡ has_images text.now }
{
    let mut lines = Lines::of(text);
    match lines.next() {
        Some(line) => line == b"posgame-cert 3".as_slice(),
        None => false,
    }
}

/// Whether a text may be the beginning of one with images, or is one.
pub(crate) fn may_have_images(text: &[u8]) -> bool
    ensures { result ≡ may_have_images text.now }
{
    text.len() < FIRST_LINE_BYTES || has_images(text)
}

/// Adds the piece to the first bytes of a text, as far as these show whether it has images.
pub(crate) fn add_first(first: &mut Vec<u8>, piece: &[u8]) -> Result<(), Memory>
    ensures { IfOk result (λ _. (text : List ℕ) → first.old.items ≡ take FIRST_LINE_BYTES text
        → first.new.items ≡ take FIRST_LINE_BYTES (text ++ piece.now)) }
{
    let room = FIRST_LINE_BYTES.saturating_sub(first.len());
    first.extend_from_slice(&piece[..room.min(piece.len())])?;
    Ok(())
}
