//! A certificate that is gathered as its bytes come, and cut short.
ghost use Rattle.std.specs.Prelude.{[], List, ℕ, IfOk};
ghost use Rattle.pg_drawing.specs.Prelude.{IsWithinLimits};
ghost use Rattle.pg_drawing.specs.Incoming.{Comes, HasCome, IsComing, IsReadAlike};

use pg_base::Memory;
use pg_cert::Cert;
use pg_cert_files::{CertFault, CertGathering, Fault, MAX_CERT_BYTES};
use pg_io::Sink;
use pg_judge::size_with;
use pg_text::Numbered;
use std::alloc::Global;

/// A certificate whose bytes come piece by piece: a sink that gathers it.
///
/// A long line of pairs is cut short while it comes, as far as that changes neither the first fault
/// nor what is drawn.
#[derive(Drop)]
pub(crate) struct Incoming {
    /// What the bytes say.
    pub(crate) gathering: CertGathering,
    /// How many bytes came, and one more than the limit for all that are more.
    pub(crate) size: usize,
}

impl Incoming {
    /// Begins with no bytes.
    pub(crate) fn begin(alloc: Global) -> Incoming
        ensures come { HasCome result [] }
        ensures ready { IsComing result }
    {
        Incoming {
            gathering: CertGathering::new(alloc),
            size: 0,
        }
    }

    /// Ends the file: its certificate, cut short, or its first fault.
    pub(crate) fn end(self, alloc: Global) -> Result<Cert, CertFault>
        requires { IsComing self }
        ensures read { (text : List ℕ) → HasCome self text → IsReadAlike result text }
        ensures limits { IfOk result IsWithinLimits }
    {
        if self.size > MAX_CERT_BYTES {
            return Err(CertFault::Bad {
                number: Fault::Size.number(),
                line: 0,
            });
        }
        self.gathering.end(alloc)
    }
}

impl Sink for Incoming {
    ghost ready = { λ incoming. IsComing incoming };

    ghost took = { λ first now bytes. Comes first now bytes };

    fn take(&mut self, alloc: Global, piece: &[u8]) -> Result<(), Memory> {
        self.size = size_with(self.size, piece.len());
        self.gathering.take(alloc, piece)?;
        self.gathering.shorten(alloc)
    }
}
