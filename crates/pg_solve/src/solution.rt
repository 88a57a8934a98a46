//! What solving finds.

use pg_base::Score;
use pg_cert::Cert;

/// Who wins a switching game (Lehman, A solution of the Shannon switching game, 1964).
#[derive(Clone, Copy, Debug, PartialEq, Eq)]
pub enum Class {
    /// Short, whoever moves first.
    Short,
    /// Cut, whoever moves first.
    Cut,
    /// The side that moves first.
    First,
}

/// What solving a game has found.
#[derive(Debug, Drop)]
pub enum Solution {
    /// The value of a game on lines.
    Value {
        /// The value of the game's position.
        score: Score,
        /// What shows it: the winner's claim, or for a draw Y's claim and then X's.
        certificate: Cert,
    },
    /// The class of a switching game.
    Class {
        /// The class.
        class: Class,
        /// What shows it: the winners' claims with X and then with Y to move first.
        certificate: Cert,
    },
    /// As many positions of a game on lines were expanded as the budget allows, and they leave the
    /// question open that was asked last.
    Unknown,
}
