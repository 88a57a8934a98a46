//! What is known of a certificate that is read as its bytes come.

ghost use Rattle.std.specs.Prelude.{◌+◌, ◌≤◌};
ghost use Rattle.pg_cert_files.specs.declared.limits.TheConstants.{MAX_CERT_BYTES};

use crate::reader::LineReader;

/// A certificate that comes in pieces. Feed it bytes with `feed` until all have been used, and then
/// call `end`.
///
/// It keeps the line in hand and no part that it gave.
#[derive(Debug, Drop)]
pub struct CertReader {
    /// What the lines have said.
    pub(crate) lines: LineReader,
    /// How many bytes came, and one more than the limit for all that are more.
    pub(crate) size: usize,
    /// How long the line in hand is when it is next tried to be cut short.
    pub(crate) wait: usize,
    ghost few: { lines.count ≤ size },
    ghost capped: { size ≤ MAX_CERT_BYTES + 1 },
}
