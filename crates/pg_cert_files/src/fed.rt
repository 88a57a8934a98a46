//! What feeding a reader gives.

use pg_cert::Part;

/// How many bytes were used, and the part that is whole with them.
#[derive(Debug, Drop)]
pub struct Fed {
    /// How many bytes of the piece were used.
    pub used: usize,
    /// The part that is whole with the last of them.
    pub part: Option<Part>,
}
