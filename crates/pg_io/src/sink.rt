//! What takes the bytes of a file as they come.
ghost use Rattle.std.specs.Prelude.{◌≡◌, ◌++◌, IfOk, ⊤};
ghost use Rattle.pg_io.specs.Files.{Bytes};
ghost use Rattle.pg_io.specs.Reading.{Goes};

use pg_base::Memory;
use std::alloc::Global;

/// What takes the bytes of a file as they come, piece by piece.
///
/// An implementation tells what it means that it took these bytes and no others, in this order.
pub trait Sink {
    /// It may take bytes.
    ghost ready: { Self → Type 0 };

    /// From its first state to the second, it took these bytes.
    ghost took: { Self → Self → Bytes → Type 0 };

    /// Takes a piece after the bytes that were taken before it.
    ///
    /// `Memory` means that memory was refused; then the sink can only be dropped.
    fn take(&mut self, alloc: Global, piece: &[u8]) -> Result<(), Memory>
        requires { ready self.old }
        ensures ready { IfOk result (λ _. ready self.new) }
        ensures took { IfOk result (λ _. Goes took self.old self.new piece.now) };
}

/// A list that keeps all that it takes.
impl Sink for Vec<u8> {
    ghost ready = { λ _. ⊤ };

    ghost took = { λ first kept bytes. kept.items ≡ first.items ++ bytes };

    fn take(&mut self, _: Global, piece: &[u8]) -> Result<(), Memory> {
        self.extend_from_slice(piece)?;
        Ok(())
    }
}
