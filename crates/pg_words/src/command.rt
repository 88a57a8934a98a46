//! What the words ask for.
use crate::family::{Family, FamilyTask};
use crate::source::Source;
use pg_base::Side;

/// What the words ask for, with the names of files.
#[derive(Debug, Drop)]
pub enum Command {
    /// Solve a game.
    Solve {
        /// The name of the game.
        game: String,
        /// The name of the certificate.
        certificate: String,
        /// How many positions the search may expand, 1 to 100,000, where it is said.
        positions: Option<u32>,
        /// Whether the certificate may name a position as the image of another.
        images: bool,
    },
    /// Check a certificate for a game.
    Check {
        /// The name of the game.
        game: String,
        /// The name of the certificate.
        certificate: String,
    },
    /// Play a side of a game by a certificate.
    Play {
        /// The name of the game.
        game: String,
        /// The name of the certificate.
        certificate: String,
        /// The side.
        side: Side,
    },
    /// Make a game, and solve it where a certificate is wanted.
    Gen {
        /// Which game.
        which: Source,
        /// Its name.
        game: String,
        /// The name of the certificate.
        certificate: Option<String>,
    },
    /// Report on a certificate for a game.
    Report {
        /// The name of the game.
        game: String,
        /// The name of the certificate.
        certificate: String,
    },
    /// Do something with a game of a further family.
    OfFamily {
        /// Which family.
        family: Family,
        /// What is to be done.
        task: FamilyTask,
        /// The name of the game.
        game: String,
        /// The name of the certificate.
        certificate: String,
    },
    /// Record a game that is told move by move.
    Record {
        /// The name of the game.
        game: String,
        /// The name of the record.
        record: String,
    },
    /// Review a recorded game: tell the moves that lost value.
    Review {
        /// The name of the game.
        game: String,
        /// The name of the record.
        record: String,
        /// How many positions the search may expand for each position, 1 to 100,000, where it is
        /// said.
        positions: Option<u32>,
    },
}
