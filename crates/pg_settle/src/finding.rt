//! What a finder brings.

use pg_base::Score;
use pg_cert::Cert;

/// What a finder has found of a game.
#[derive(Debug, Drop)]
pub enum Finding {
    /// A certificate for a score. Nothing tells that it is valid, or that it shows the score.
    Certificate {
        /// The score that it is to show.
        score: Score,
        /// The certificate.
        certificate: Cert,
    },
    /// No certificate.
    Open,
}

/// What a finder has found of a game, and what that took.
#[derive(Debug, Drop)]
pub struct Outcome {
    /// What was found.
    pub finding: Finding,
    /// How many positions were expanded.
    pub expanded: u32,
}
