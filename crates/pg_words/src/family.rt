//! Further families of games, and what may be asked of a game of one.
use pg_base::Side;

/// A further family of games, with files of its own.
#[derive(Clone, Copy, Debug, PartialEq, Eq)]
pub enum Family {
    /// Connectivity games: X wants to join every two vertices of a graph.
    Connectivity,
    /// Switching games on vectors over two elements: X wants the target to be a sum of vectors of
    /// X's.
    Vectors,
}

/// What is to be done with a game of a family.
#[derive(Clone, Copy, Debug, PartialEq, Eq)]
pub enum FamilyTask {
    /// Solve it.
    Solve,
    /// Check a certificate for it.
    Check,
    /// Play a side of it by a certificate.
    Play {
        /// The side.
        side: Side,
    },
}
