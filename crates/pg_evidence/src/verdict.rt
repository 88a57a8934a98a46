//! What judging a certificate finds.
use pg_judge::ClaimHead;

/// What judging a certificate for a game finds.
#[derive(Debug, Drop)]
pub enum Verdict {
    /// The certificate for which it stands is valid, and its claims say this. Nodes are counted as
    /// the file has them.
    Valid(Vec<ClaimHead>),
    /// The certificate for which it stands isn't valid.
    Faulty {
        /// The first faulty claim, from 0.
        claim: u32,
        /// The node from which its first faulty node came, from 0.
        node: u32,
        /// The least fault of the node: 1 to 13.
        why: u8,
    },
    /// It stands for no certificate.
    FaultyImage {
        /// The first faulty claim, from 0.
        claim: u32,
        /// Its first faulty node, from 0.
        node: u32,
        /// The least fault of the node: 1 to 4.
        why: u8,
    },
}
