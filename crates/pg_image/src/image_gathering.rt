//! A certificate with images that is gathered as its bytes come.
ghost use Rattle.std.specs.Prelude.{◌++◌, [], List, ℕ, IfOk};
ghost use Rattle.pg_image.specs.Prelude.{IsReadAs};
ghost use Rattle.pg_image.specs.Gathering.{Gathers, GathersShort, said_within};
ghost use Rattle.pg_image.specs.Limits.{IsImageWithinLimits};

use crate::cert::ImageCert;
use crate::image_lines::ImageLines;
use pg_base::Memory;
use pg_cert_files::{CertFault, MAX_CERT_BYTES, SHORT_LINE_BYTES};
use pg_cert_lines::Fault;
use std::alloc::Global;

/// A certificate with images that is gathered from pieces of its file, of which only the line in
/// hand is kept.
#[derive(Debug, Drop)]
pub struct ImageGathering {
    /// The lines of the pieces.
    pub(crate) lines: ImageLines,
    /// How many bytes came, and one more than the limit for all that are more.
    pub(crate) size: usize,
    /// How long the line in hand is when it is next tried to be cut short.
    pub(crate) wait: usize,
}

impl ImageGathering {
    /// Begins with no bytes.
    pub fn new(alloc: Global) -> ImageGathering
        ensures { Gathers result [] [] }
    {
        ImageGathering {
            lines: ImageLines::new(alloc),
            size: 0,
            wait: 0,
        }
    }

    /// Takes the next bytes of the file.
    ///
    /// `Memory` means that memory was refused; then the gathering can only be dropped.
    pub fn take(&mut self, alloc: Global, piece: &[u8]) -> Result<(), Memory>
        ensures { IfOk result (λ _. (text short : List ℕ) → Gathers self.old text short
            → Gathers self.new (text ++ piece.now) (short ++ piece.now)) }
    {
        if self.size > MAX_CERT_BYTES {
            return Ok(());
        }
        if piece.len() > MAX_CERT_BYTES - self.size {
            self.size = MAX_CERT_BYTES + 1;
            return Ok(());
        }
        self.size += piece.len();
        self.lines.take(alloc, piece)
    }

    /// Cuts the line in hand short, if it is long and has pairs that no certificate needs: those
    /// after two that share a point and 1,024 more. What is gathered is then that of a text that
    /// is like the one before.
    ///
    /// A line that stayed long is looked at again when it has twice that length. `Memory` means
    /// that memory was refused; then the gathering can only be dropped.
    pub fn shorten(&mut self, alloc: Global) -> Result<(), Memory>
        ensures { IfOk result (λ _. (text short : List ℕ) → Gathers self.old text short
            → GathersShort self.new text short) }
    {
        let length = self.lines.pending.len();
        if length < SHORT_LINE_BYTES {
            self.wait = SHORT_LINE_BYTES;
            return Ok(());
        }
        if length < self.wait {
            return Ok(());
        }
        self.lines.shorten(alloc)?;
        self.wait = self.lines.pending.len().saturating_mul(2);
        Ok(())
    }

    /// Ends the file: its certificate, or its first fault.
    pub fn end(self, alloc: Global) -> Result<ImageCert, CertFault>
        ensures read { (text short : List ℕ) → Gathers self text short
            → IsReadAs result (said_within text short) }
        ensures limits { IfOk result (λ certificate. (text short : List ℕ)
            → Gathers self text short
            → IsImageWithinLimits certificate) }
    {
        if self.size > MAX_CERT_BYTES {
            return Err(CertFault::at_line(Fault::Size, 0));
        }
        self.lines.end(alloc)
    }
}
