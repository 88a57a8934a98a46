//! A certificate that is gathered as its bytes come.
ghost use Rattle.std.specs.Prelude.{◌++◌, [], List, ℕ, IfOk};
ghost use Rattle.pg_cert.specs.Limits.{IsWithinLimits};
ghost use Rattle.pg_cert_files.specs.CertFile.{certificate};
ghost use Rattle.pg_cert_files.specs.Gatherer.{HasGathered, HasGatheredShort, IsGathering};
ghost use Rattle.pg_cert_files.specs.Prelude.{IsReadAs};

use crate::cert_state::CertReader;
use crate::gathered_parts::Gatherer;
use pg_base::Memory;
use pg_cert::{Cert, Claims};
use pg_text::FileError;
use std::alloc::Global;
use std::mem::replace;

/// A certificate that is gathered from pieces of its file, of which only the line in hand is kept.
#[derive(Debug, Drop)]
pub struct CertGathering {
    /// The reader of the pieces.
    pub(crate) reader: CertReader,
    /// The claims of the parts so far.
    pub(crate) gatherer: Gatherer,
}

impl CertGathering {
    /// Begins with no bytes.
    pub fn new(alloc: Global) -> CertGathering
        ensures { HasGathered result [] }
    {
        CertGathering {
            reader: CertReader::new(alloc),
            gatherer: Gatherer::new(alloc),
        }
    }

    /// Takes the next bytes of the file.
    ///
    /// `Memory` means that memory was refused; then the gathering can only be dropped.
    pub fn take(&mut self, alloc: Global, piece: &[u8]) -> Result<(), Memory>
        ensures { IfOk result (λ _. (text : List ℕ) → HasGathered self.old text
            → HasGathered self.new (text ++ piece.now)) }
    {
        let mut rest = piece;
        while !rest.is_empty() {
            let fed = self.reader.feed(alloc, rest)?;
            rest = &rest[fed.used..];
            let gatherer = replace(&mut self.gatherer, Gatherer::new(alloc));
            self.gatherer = gatherer.with(alloc, fed.part)?;
        }
        Ok(())
    }

    /// Cuts the line in hand short, as `CertReader::shorten` does. What is gathered is then that of
    /// a text that is like this one.
    ///
    /// `Memory` means that memory was refused; then the gathering can only be dropped.
    pub fn shorten(&mut self, alloc: Global) -> Result<(), Memory>
        requires { IsGathering self.old }
        ensures { IfOk result (λ _. (text : List ℕ) → HasGathered self.old text
            → HasGatheredShort self.new text) }
    {
        self.reader.shorten(alloc)
    }

    /// Ends the file: its certificate, or its first fault.
    pub fn end(self, alloc: Global) -> Result<Cert, FileError>
        ensures read { (text : List ℕ) → HasGathered self text
            → IsReadAs result (certificate text) }
        ensures limits { IfOk result (λ cert. (text : List ℕ) → HasGathered self text
            → IsWithinLimits cert) }
    {
        let version = self.reader.version();
        let last = self.reader.end(alloc)?;
        let claims = self.gatherer.with(alloc, last)?.close()?;
        Ok(Cert {
            version,
            claims: Claims::from_vec(claims),
        })
    }
}
