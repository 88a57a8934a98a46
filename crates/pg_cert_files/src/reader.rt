//! Reading in pieces.

ghost use Rattle.std.specs.Prelude.{◌≡◌, ◌+◌, ◌-◌, ◌<◌, ◌≤◌, ◌^◌, ◌++◌, ◌∷◌, [], List, ℕ, take};
ghost use Rattle.std.specs.Prelude.{length, IfOk, IfSome, IfNone};
ghost use Rattle.pg_cert_files.specs.Prelude.{LINE_FEED, Lacks};
ghost use Rattle.pg_cert_files.specs.Steps.{Steps};
ghost use Rattle.pg_cert_files.specs.CertFile.{step, listed, outcome, fault_of, text_parts};
ghost use Rattle.pg_cert_files.specs.Reader.{StandsFor, told, IsLinesEnd};

use crate::fed::Fed;
use crate::progress::Progress;
use pg_base::Memory;
use pg_cert::Part;
use pg_cert_lines::Fault;
use pg_text::{FileError, LineError, cut_at};
use std::alloc::Global;

/// Lines that come in pieces: what the whole ones have said, and the line in hand.
#[derive(Debug, Drop)]
pub(crate) struct LineReader {
    /// The bytes of the line in hand.
    pub(crate) pending: Vec<u8>,
    /// Which line is due.
    pub(crate) progress: Progress,
    /// How many lines have come, up to the first that is faulty.
    pub(crate) count: u32,
    /// The first fault with the number of its line.
    pub(crate) fault: Option<(Fault, u32)>,
}

impl LineReader {
    /// A reader to which nothing was fed.
    pub(crate) fn new(alloc: Global) -> LineReader
        ensures stands { StandsFor result [] }
        ensures count { result.count ≡ 0 }
    {
        LineReader {
            pending: Vec::new(alloc),
            progress: Progress::new(),
            count: 0,
            fault: None,
        }
    }

    /// Keeps bytes of a line that isn't whole yet.
    fn keep(&mut self, bytes: &[u8]) -> Result<(), Memory>
        requires { Lacks LINE_FEED bytes.now }
        ensures count { self.new.count ≡ self.old.count }
        ensures stands { IfOk result (λ _. (text : List ℕ) → StandsFor self.old text
            → StandsFor self.new (text ++ bytes.now) × (told (text ++ bytes.now) ≡ told text)) }
    {
        if self.fault.is_none() {
            self.pending.extend_from_slice(bytes)?;
        }
        Ok(())
    }

    /// Reads the line in hand, whose last bytes these are.
    fn read_line(&mut self, alloc: Global, last: &[u8]) -> Result<Option<Part>, LineError<Fault>>
        ensures steps { Steps result self.new.progress
            (step self.old.progress (self.old.pending.items ++ last.now)) }
        ensures count { self.new.count ≡ self.old.count }
        ensures fault { self.new.fault ≡ self.old.fault }
        ensures pending { IfOk result (λ _. self.new.pending.items ≡ []) }
    {
        if self.pending.is_empty() {
            return self.progress.read(alloc, last);
        }
        self.pending.extend_from_slice(last)?;
        let part = self.progress.read(alloc, &self.pending)?;
        self.pending.clear();
        Ok(part)
    }

    /// Ends the line in hand, whose last bytes these are.
    fn end_line(&mut self, alloc: Global, last: &[u8]) -> Result<Option<Part>, Memory>
        requires room { self.old.count < 2 ^ 31 }
        requires line { Lacks LINE_FEED last.now }
        ensures count { self.new.count ≤ self.old.count + 1 }
        ensures stands { IfOk result (λ part. (text : List ℕ) → StandsFor self.old text
            → StandsFor self.new (text ++ (last.now ++ LINE_FEED ∷ []))
            × ((told (text ++ (last.now ++ LINE_FEED ∷ []))).parts
            ≡ (told text).parts ++ listed part)) }
    {
        if self.fault.is_some() {
            return Ok(None);
        }
        self.count += 1;
        match self.read_line(alloc, last) {
            Ok(part) => Ok(part),
            Err(LineError::Memory) => Err(Memory),
            Err(LineError::Fault(fault)) => {
                self.fault = Some((fault, self.count));
                Ok(None)
            }
        }
    }

    /// Uses bytes of the piece until a part is whole or all are used.
    pub(crate) fn feed(&mut self, alloc: Global, piece: &[u8]) -> Result<Fed, Memory>
        requires { self.old.count + length piece.now < 2 ^ 31 }
        ensures used { IfOk result (λ fed. fed.used ≤ length piece.now) }
        ensures all { IfOk result (λ fed. IfNone fed.part (fed.used ≡ length piece.now)) }
        ensures count { IfOk result (λ fed. self.new.count ≤ self.old.count + fed.used) }
        ensures most { self.new.count ≤ self.old.count + length piece.now }
        ensures last { IfOk result (λ fed. IfSome fed.part (λ _. (0 < fed.used)
            × ((text : List ℕ) → StandsFor self.old text
            → (told (text ++ take (fed.used - 1) piece.now)).parts ≡ (told text).parts))) }
        ensures stands { IfOk result (λ fed. (text : List ℕ) → StandsFor self.old text
            → StandsFor self.new (text ++ take fed.used piece.now)
            × ((told (text ++ take fed.used piece.now)).parts
            ≡ (told text).parts ++ listed fed.part)) }
    {
        let mut rest = piece;
        while let Some((line, behind)) = cut_at(b'\n', rest) {
            rest = behind;
            if let Some(part) = self.end_line(alloc, line)? {
                return Ok(Fed {
                    used: piece.len() - rest.len(),
                    part: Some(part),
                });
            }
        }
        self.keep(rest)?;
        Ok(Fed {
            used: piece.len(),
            part: None,
        })
    }

    /// What the end of the input means, where no line is unfinished.
    fn outcome(&self) -> Option<(Fault, u32)>
        requires { self.now.count < 2 ^ 31 }
        ensures { (text : List ℕ) → StandsFor self.now text → result ≡ outcome (told text) }
    {
        if let Some(bad) = self.fault {
            return Some(bad);
        }
        match self.progress.end_fault() {
            None => None,
            Some(fault) => Some((fault, self.count + 1)),
        }
    }

    /// Ends the input: the last part, where its line feed was lacking, or the fault of all that was
    /// fed.
    pub(crate) fn end(self, alloc: Global) -> Result<Option<Part>, FileError>
        requires { self.count + 1 < 2 ^ 31 }
        ensures { (text : List ℕ) → StandsFor self text
            → IsLinesEnd result (fault_of text) (text_parts text) (told text).parts }
    {
        if let Some((fault, line)) = self.fault {
            return Err(FileError::at_line(fault, line));
        }
        if self.pending.is_empty() {
            if let Some((fault, line)) = self.outcome() {
                return Err(FileError::at_line(fault, line));
            }
            return Ok(None);
        }
        let mut reader = self;
        let part = reader.end_line(alloc, &[])?;
        match reader.outcome() {
            Some((fault, line)) => Err(FileError::at_line(fault, line)),
            None => Ok(part),
        }
    }
}
