//! The results of a game.

/// The result of a game, the least first: X likes the greater, Y the lesser.
#[derive(Clone, Copy, Debug, PartialEq, Eq, PartialOrd, Ord, Hash)]
pub enum Score {
    /// Y wins.
    YWins,
    /// Nobody wins.
    Draw,
    /// X wins.
    XWins,
}
