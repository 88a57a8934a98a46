//! Lines of a certificate with images that come in pieces.
ghost use Rattle.std.specs.Prelude.{◌≡◌, ◌+◌, ◌≤◌, ◌<◌, ◌^◌, ◌++◌, ◌∷◌, [], List, ℕ, length, IfOk};
ghost use Rattle.pg_image.specs.Prelude.{IsReadAs, LINE_FEED, Lacks, MAX_CERT_BYTES, lines};
ghost use Rattle.pg_image.specs.Gathering.{HasRead, HasReadLine, said_after};
ghost use Rattle.pg_image.specs.ImageFile.{said};

use crate::cert::ImageCert;
use crate::draft::ImageDraft;
use pg_base::{LINE_FEED, Memory};
use pg_cert_files::CertFault;
use pg_cert_lines::Fault;
use pg_text::{LineError, cut_at};
use std::alloc::Global;
use std::mem::replace;

/// Lines that come in pieces: what the whole ones have said, and the line in hand.
#[derive(Debug, Drop)]
pub(crate) struct ImageLines {
    /// The bytes of the line in hand.
    pub(crate) pending: Vec<u8>,
    /// What the lines before it have said.
    pub(crate) draft: ImageDraft,
    /// The number of the line in hand, from 1.
    pub(crate) number: u32,
    /// The first fault with the number of its line.
    pub(crate) fault: Option<(Fault, u32)>,
}

impl ImageLines {
    /// Begins with no bytes.
    pub(crate) fn new(alloc: Global) -> ImageLines
        ensures { HasRead result [] }
    {
        ImageLines {
            pending: Vec::new(alloc),
            draft: ImageDraft::new(alloc),
            number: 1,
            fault: None,
        }
    }

    /// Reads the next line, unless one was faulty.
    fn read_line(&mut self, alloc: Global, line: &[u8]) -> Result<(), Memory>
        ensures pending { self.new.pending ≡ self.old.pending }
        ensures count { self.new.number ≤ self.old.number + 1 }
        ensures said { IfOk result (λ _. HasReadLine self.old line.now self.new) }
    {
        if self.fault.is_some() {
            return Ok(());
        }
        let number = self.number;
        self.number = number.saturating_add(1);
        let draft = replace(&mut self.draft, ImageDraft::new(alloc));
        match draft.read(alloc, line) {
            Ok(next) => {
                self.draft = next;
                Ok(())
            }
            Err(LineError::Fault(fault)) => {
                self.fault = Some((fault, number));
                Ok(())
            }
            Err(LineError::Memory) => Err(Memory),
        }
    }

    /// Reads the line in hand, which is then another without bytes.
    fn read_pending(&mut self, alloc: Global) -> Result<(), Memory>
        ensures pending { self.new.pending.items ≡ [] }
        ensures count { self.new.number ≤ self.old.number + 1 }
        ensures said { IfOk result (λ _. HasReadLine self.old self.old.pending.items self.new) }
    {
        let line = replace(&mut self.pending, Vec::new(alloc));
        self.read_line(alloc, &line)
    }

    /// Ends the line in hand, whose last bytes these are.
    fn end_line(&mut self, alloc: Global, last: &[u8]) -> Result<(), Memory>
        requires { Lacks LINE_FEED last.now }
        ensures { IfOk result (λ _. (text : List ℕ) → length text < 2 ^ 30
            → HasRead self.old text
            → HasRead self.new (text ++ (last.now ++ LINE_FEED ∷ []))) }
    {
        if self.pending.is_empty() {
            return self.read_line(alloc, last);
        }
        self.pending.extend_from_slice(last)?;
        self.read_pending(alloc)
    }

    /// Keeps bytes of a line that isn't whole yet.
    fn keep(&mut self, bytes: &[u8]) -> Result<(), Memory>
        requires { Lacks LINE_FEED bytes.now }
        ensures { IfOk result (λ _. (text : List ℕ) → HasRead self.old text
            → HasRead self.new (text ++ bytes.now)) }
    {
        if self.fault.is_none() {
            self.pending.extend_from_slice(bytes)?;
        }
        Ok(())
    }

    /// Takes the next bytes, and reads the lines that are whole with them.
    pub(crate) fn take(&mut self, alloc: Global, piece: &[u8]) -> Result<(), Memory>
        ensures { IfOk result (λ _. (text : List ℕ) → length (text ++ piece.now) ≤ MAX_CERT_BYTES
            → HasRead self.old text
            → HasRead self.new (text ++ piece.now)) }
    {
        let mut rest = piece;
        while let Some((line, others)) = cut_at(LINE_FEED, rest) {
            rest = others;
            self.end_line(alloc, line)?;
        }
        self.keep(rest)
    }

    /// What all lines have said, where none is in hand.
    fn finish(self) -> Result<ImageCert, CertFault>
        ensures { IsReadAs result (said_after self []) }
    {
        match self.fault {
            Some((fault, line)) => Err(CertFault::at_line(fault, line)),
            None => self.draft.finish(self.number),
        }
    }

    /// Ends the text: what its lines have said.
    pub(crate) fn end(self, alloc: Global) -> Result<ImageCert, CertFault>
        ensures { (text : List ℕ) → length text ≤ MAX_CERT_BYTES → HasRead self text
            → IsReadAs result (said (lines text)) }
    {
        if self.pending.is_empty() {
            return self.finish();
        }
        let mut lines = self;
        lines.read_pending(alloc)?;
        lines.finish()
    }
}
