//! Moves that were tried.
ghost use Rattle.std.specs.Prelude.{◌≡◌};
ghost use Rattle.pg_moves.specs.Best.{has_score, is_known};

use pg_base::Score;

/// What is known of a position.
#[derive(Clone, Copy, Debug, PartialEq, Eq)]
pub enum Worth {
    /// Its value, by a certificate that was accepted.
    Known {
        /// The value.
        score: Score,
        /// How many nodes the certificate has.
        nodes: u32,
        /// How many positions were expanded.
        expanded: u32,
    },
    /// Nothing: no certificate was brought that shows a value.
    Unknown {
        /// How many positions were expanded.
        expanded: u32,
    },
}

/// A move that was tried.
#[derive(Clone, Copy, Debug, PartialEq, Eq)]
pub struct Trial {
    /// The point of the move.
    pub point: u16,
    /// What is known of the position after it.
    pub worth: Worth,
}

impl Worth {
    /// Returns whether the value is known.
    pub fn is_known(self) -> bool
        ensures { result ≡ is_known self }
    {
        match self {
            Worth::Known { .. } => true,
            Worth::Unknown { .. } => false,
        }
    }

    /// Returns whether the value is known and is this score.
    pub fn has_score(self, score: Score) -> bool
        ensures { result ≡ has_score score self }
    {
        match self {
            Worth::Known { score: own, .. } => own == score,
            Worth::Unknown { .. } => false,
        }
    }
}
