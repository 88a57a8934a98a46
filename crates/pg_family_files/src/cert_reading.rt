//! A connectivity game's certificate from the bytes of its file.
ghost use Rattle.std.specs.Prelude.{IfOk};
ghost use Rattle.pg_family_files.specs.SpanCertFile.{span_cert};
ghost use Rattle.pg_family_files.specs.SpanCertPrint.{IsWithinRanges};
ghost use Rattle.pg_family_files.specs.SpanCertViews.{IsReadAs};

use crate::cert_draft::CertDraft;
use crate::cert_fault::Fault;
use crate::cert_limits::MAX_SPAN_CERT_BYTES;
use pg_span::SpanCert;
use pg_text::{FileError, Lines};
use std::alloc::Global;

/// The certificate that the text says, or the first fault with the number of its line.
///
/// The text is strict: words stand after single spaces, and no line is skipped. Where a line has
/// several faults, the one with the least number is given. A fault of the end has the number of
/// lines plus 1, and a file that is too large has line 0.
///
/// # Errors
///
/// `Bad` with the number of the fault: 1 for a file of more than `MAX_SPAN_CERT_BYTES` bytes, 2 for
/// another first line, 3 for a line that isn't of the form that is due and for an end where a line
/// is due, 4 for a number's place without a number of 0 to `MAX_SPAN_NUMBER` and for edges that
/// don't ascend, 6 for a ninth claim. `Memory` where no memory is left.
#[tactic(auto, unfolding(crate::specs::SpanCertFile::span_cert))]
pub fn read_span_cert(alloc: Global, bytes: &[u8]) -> Result<SpanCert, FileError>
    ensures read { IsReadAs (λ c. c) result (span_cert bytes.now) }
    ensures ranges { IfOk result IsWithinRanges }
{
    if bytes.len() > MAX_SPAN_CERT_BYTES {
        return Err(FileError::at_line(Fault::Size, 0));
    }
    let mut draft = CertDraft::new(alloc);
    let mut number = 1;
    for line in Lines::of(bytes) {
        if let Err(error) = draft.read(alloc, line) {
            return Err(error.at(number));
        }
        number += 1;
    }
    draft.finish(number)
}
