//! A certificate whose bytes come piece by piece, and which is gathered, in either form.
ghost use Rattle.std.specs.Prelude.{[]};
ghost use Rattle.pg_evidence.specs.Arriving.{Arrives, HasArrived, IsArriving};

use crate::kept::Kept;
use pg_base::Memory;
use pg_cert_files::CertGathering;
use pg_io::Sink;
use std::alloc::Global;

/// A certificate whose bytes come piece by piece, in either form: a sink that gathers it.
///
/// It is gathered as one of plain nodes as it comes, and also as one with images while it may be
/// one, which its first line shows.
#[derive(Drop)]
pub(crate) struct Arriving {
    /// What the bytes say as those of a certificate of plain nodes.
    pub(crate) gathering: CertGathering,
    /// What they say as those of one with images.
    pub(crate) kept: Kept,
}

impl Arriving {
    /// Begins with no bytes.
    pub(crate) fn begin(alloc: Global) -> Arriving
        ensures arrived { HasArrived result [] }
        ensures ready { IsArriving result }
    {
        Arriving {
            gathering: CertGathering::new(alloc),
            kept: Kept::new(alloc),
        }
    }
}

impl Sink for Arriving {
    ghost ready = { λ arriving. IsArriving arriving };

    ghost took = { λ first now bytes. Arrives first now bytes };

    fn take(&mut self, alloc: Global, piece: &[u8]) -> Result<(), Memory> {
        self.gathering.take(alloc, piece)?;
        self.kept.take(alloc, piece)
    }
}
