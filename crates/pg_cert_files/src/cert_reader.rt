//! A certificate that is read as its bytes come.

ghost use Rattle.std.specs.Prelude.{◌≡◌, ◌+◌, ◌-◌, ◌<◌, ◌≤◌, ◌++◌, [], List, ℕ, take, length, Ok};
ghost use Rattle.std.specs.Prelude.{IfOk, IfSome, IfNone};
ghost use Rattle.pg_cert_files.specs.Prelude.{BeginCert, Cert};
ghost use Rattle.pg_cert_files.specs.CertFile.{certificate, listed};
ghost use Rattle.pg_cert_files.specs.Pieces.{IsFed, IsEnd, parts_told};
ghost use Rattle.pg_cert_files.specs.declared.limits.TheConstants.{MAX_CERT_BYTES};

use crate::cert_state::CertReader;
use crate::fed::Fed;
use crate::limits::MAX_CERT_BYTES;
use crate::reader::LineReader;
use pg_base::Memory;
use pg_cert::{Part, Version};
use pg_cert_lines::Fault;
use pg_text::FileError;
use std::alloc::Global;

impl CertReader {
    /// A reader to which nothing was fed.
    pub fn new(alloc: Global) -> CertReader
        ensures fed { IsFed result [] }
        ensures parts { parts_told [] ≡ [] }
    {
        CertReader {
            lines: LineReader::new(alloc),
            size: 0,
            wait: 0,
        }
    }

    /// Feeds bytes that are within the limit of a file.
    fn feed_within(&mut self, alloc: Global, piece: &[u8]) -> Result<Fed, Memory>
        requires { self.old.size + length piece.now ≤ MAX_CERT_BYTES }
        ensures used { IfOk result (λ fed. fed.used ≤ length piece.now) }
        ensures all { IfOk result (λ fed. IfNone fed.part (fed.used ≡ length piece.now)) }
        ensures fed { IfOk result (λ fed. (text : List ℕ) → IsFed self.old text
            → IsFed self.new (text ++ take fed.used piece.now)) }
        ensures parts { IfOk result (λ fed. (text : List ℕ) → IsFed self.old text
            → parts_told (text ++ take fed.used piece.now) ≡ parts_told text ++ listed fed.part) }
        ensures last { IfOk result (λ fed. IfSome fed.part (λ _. (0 < fed.used)
            × ((text : List ℕ) → IsFed self.old text
            → parts_told (text ++ take (fed.used - 1) piece.now) ≡ parts_told text))) }
    {
        let before = self.size;
        self.size = before + piece.len();
        let fed = self.lines.feed(alloc, piece)?;
        self.size = before + fed.used;
        Ok(fed)
    }

    /// Uses bytes of the piece until a part is whole, and none after it, or else all of them.
    ///
    /// No part is given of a file's bytes after its limit, nor of those after its first fault of
    /// form. The parts that have been given begin those of a certificate within the limits, also
    /// where a fault comes later. After want of memory the reader can only be dropped.
    pub fn feed(&mut self, alloc: Global, piece: &[u8]) -> Result<Fed, Memory>
        ensures used { IfOk result (λ fed. fed.used ≤ length piece.now) }
        ensures all { IfOk result (λ fed. IfNone fed.part (fed.used ≡ length piece.now)) }
        ensures fed { IfOk result (λ fed. (text : List ℕ) → IsFed self.old text
            → IsFed self.new (text ++ take fed.used piece.now)) }
        ensures parts { IfOk result (λ fed. (text : List ℕ) → IsFed self.old text
            → parts_told (text ++ take fed.used piece.now) ≡ parts_told text ++ listed fed.part) }
        ensures last { IfOk result (λ fed. IfSome fed.part (λ _. (0 < fed.used)
            × ((text : List ℕ) → IsFed self.old text
            → parts_told (text ++ take (fed.used - 1) piece.now) ≡ parts_told text))) }
    {
        if self.size > MAX_CERT_BYTES {
            return Ok(Fed {
                used: piece.len(),
                part: None,
            });
        }
        let room = MAX_CERT_BYTES - self.size;
        if piece.len() <= room {
            return self.feed_within(alloc, piece);
        }
        let fed = self.feed_within(alloc, &piece[..room])?;
        if fed.part.is_some() {
            return Ok(fed);
        }
        self.size = MAX_CERT_BYTES + 1;
        Ok(Fed {
            used: piece.len(),
            part: None,
        })
    }

    /// The version of the certificate, once all of it was fed.
    pub(crate) fn version(&self) -> Version
        ensures { (text : List ℕ) (cert : Cert) → IsFed self.now text
            → certificate text ≡ Ok cert
            → result ≡ cert.version }
    {
        self.lines.progress.version
    }

    /// Ends the input: the last node, where its line feed was lacking, or the first fault of all
    /// that was fed.
    pub fn end(self, alloc: Global) -> Result<Option<Part>, FileError>
        ensures end { (text : List ℕ) → IsFed self text → IsEnd result text }
        ensures begins { IfOk result (λ last. (text : List ℕ) → IsFed self text
            → BeginCert (parts_told text ++ listed last)) }
    {
        if self.size > MAX_CERT_BYTES {
            return Err(FileError::at_line(Fault::Size, 0));
        }
        self.lines.end(alloc)
    }
}
