//! What the lines of a connectivity game's certificate have said so far.
ghost use Rattle.std.specs.Prelude.{◌≡◌};
ghost use Rattle.pg_family_files.specs.SpanCertFile.{after, body_line, claim_line, end_fault};
ghost use Rattle.pg_family_files.specs.SpanCertFile.{ended, header_line, nothing};
ghost use Rattle.pg_family_files.specs.SpanCertViews.{IsReadAs, view};
ghost use Rattle.pg_text.specs.Faults.{Becomes};

use crate::cert_fault::Fault;
use crate::cert_line::{Head, body_of, head_of};
use pg_cert::MAX_CLAIMS;
use pg_span::{SpanCert, SpanClaim, SpanClaims};
use pg_text::{FileError, LineError};
use std::alloc::Global;

/// The line that is due.
#[derive(Clone, Copy, Debug, PartialEq, Eq)]
pub(crate) enum Due {
    /// The first line.
    Header,
    /// A claim line, or the end after a whole claim.
    Claim,
    /// The body of a claim.
    Body(Head),
}

/// What the lines so far have said.
#[derive(Debug, Drop)]
pub(crate) struct CertDraft {
    /// The line that is due.
    pub(crate) due: Due,
    /// The claims that are whole.
    pub(crate) claims: Vec<SpanClaim>,
}

impl CertDraft {
    /// Before the first line.
    pub(crate) fn new(alloc: Global) -> CertDraft
        ensures { view result ≡ nothing }
    {
        CertDraft {
            due: Due::Header,
            claims: Vec::new(alloc),
        }
    }

    /// Reads the first line.
    fn header(&mut self, line: &[u8]) -> Result<(), LineError<Fault>>
        ensures { Becomes result (view self.new) (header_line (view self.old) line.now) }
    {
        if line != b"posgame-span-cert 1".as_slice() {
            return Err(LineError::Fault(Fault::Header));
        }
        self.due = Due::Claim;
        Ok(())
    }

    /// Reads a claim line.
    fn claim(&mut self, line: &[u8]) -> Result<(), LineError<Fault>>
        ensures { Becomes result (view self.new) (claim_line (view self.old) line.now) }
    {
        let Some(head) = head_of(line) else {
            return Err(LineError::Fault(Fault::Form));
        };
        if self.claims.len() >= MAX_CLAIMS as usize {
            return Err(LineError::Fault(Fault::Limit));
        }
        self.due = Due::Body(head);
        Ok(())
    }

    /// Reads the body of a claim.
    fn body(&mut self, alloc: Global, head: Head, line: &[u8]) -> Result<(), LineError<Fault>>
        ensures { Becomes result (view self.new) (body_line head (view self.old) line.now) }
    {
        let body = body_of(alloc, line)?;
        self.claims.push(SpanClaim {
            turn: head.turn,
            side: head.side,
            body,
        })?;
        self.due = Due::Claim;
        Ok(())
    }

    /// Reads the next line.
    #[tactic(auto, unfolding(crate::specs::SpanCertFile::after))]
    pub(crate) fn read(&mut self, alloc: Global, line: &[u8]) -> Result<(), LineError<Fault>>
        ensures { Becomes result (view self.new) (after (view self.old) line.now) }
    {
        match self.due {
            Due::Header => self.header(line),
            Due::Claim => self.claim(line),
            Due::Body(head) => self.body(alloc, head, line),
        }
    }

    /// The fault of a file that ends here.
    fn end_fault(&self) -> Option<Fault>
        ensures { result ≡ end_fault (view self.now) }
    {
        match self.due {
            Due::Header => Some(Fault::Header),
            Due::Claim => {
                if self.claims.is_empty() {
                    Some(Fault::Form)
                } else {
                    None
                }
            }
            Due::Body(_) => Some(Fault::Form),
        }
    }

    /// The certificate that the lines have said, or what lacks at the end, which has this number as
    /// a line.
    pub(crate) fn finish(self, number: u32) -> Result<SpanCert, FileError>
        ensures { IsReadAs (λ c. c) result (ended number (view self) (end_fault (view self))) }
    {
        match self.end_fault() {
            Some(fault) => Err(FileError::at_line(fault, number)),
            None => Ok(SpanCert {
                claims: SpanClaims::from_vec(self.claims),
            }),
        }
    }
}
