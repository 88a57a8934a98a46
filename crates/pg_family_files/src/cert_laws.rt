//! What holds of the definition of reading: its faults, its ranges, and that it takes back what is
//! printed.
ghost use Rattle.std.specs.Prelude.{◌≡◌, ◌≤◌, ℕ, List, length, Ok, Err};
ghost use Rattle.pg_family_files.specs.SpanCertFaults.{IsFirstFault};
ghost use Rattle.pg_family_files.specs.SpanCertFile.{span_cert};
ghost use Rattle.pg_family_files.specs.SpanCertPrint.{IsWithinRanges, printed_span};
ghost use Rattle.pg_family_files.specs.declared.cert_fault.Fault.{Fault};
ghost use Rattle.pg_family_files.specs.declared.cert_limits.TheConstants.{MAX_SPAN_CERT_BYTES};
ghost use Rattle.pg_span.specs.declared.cert.SpanCert.{SpanCert};

/// A fault that reading gives is the first: the file is too large; or no line before the one that
/// it names has a fault, and it is the least of those of its line; or no line has one, and the file
/// ends where a line is due.
pub fn first_span_cert_fault_is_told()
    ensures { (text : List ℕ) (fault : Fault) (number : ℕ) → span_cert text ≡ Err (fault, number)
        → IsFirstFault text fault number }
{}

/// A certificate that is read has one to eight claims, and no number above the limit.
pub fn what_is_read_is_within_ranges()
    ensures { (text : List ℕ) (c : SpanCert) → span_cert text ≡ Ok c → IsWithinRanges c }
{}

/// Reading what is printed gives the certificate back, where its text isn't too large for a file.
/// Only a list of parts can be so long.
pub fn printed_span_cert_is_read()
    ensures { (c : SpanCert) → IsWithinRanges c
        → length (printed_span c) ≤ MAX_SPAN_CERT_BYTES
        → span_cert (printed_span c) ≡ Ok c }
{}
