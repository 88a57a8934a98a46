//! Feeding a piece of a text.
ghost use Rattle.std.specs.Prelude.{◌≡◌, ◌++◌, List, ℕ, IfOk};
ghost use Rattle.pg_judge.specs.Judged.{AreFed, HaveBeenFed};

use crate::told::Told;
use pg_base::Memory;
use pg_cert_files::CertReader;
use std::alloc::Global;

/// Feeds the reader with a piece, and tells the parts that are whole with it.
pub(crate) fn feed_piece(
    alloc: Global,
    reader: &mut CertReader,
    told: &mut Told,
    piece: &[u8],
) -> Result<(), Memory>
    requires { HaveBeenFed reader.old told.old }
    ensures game { told.new.checking.game ≡ told.old.checking.game }
    ensures fed { IfOk result (λ _. (text : List ℕ) → AreFed reader.old told.old text
        → AreFed reader.new told.new (text ++ piece.now)) }
{
    let mut rest = piece;
    while !rest.is_empty() {
        let fed = reader.feed(alloc, rest)?;
        rest = &rest[fed.used..];
        told.take(alloc, fed.part)?;
    }
    Ok(())
}
