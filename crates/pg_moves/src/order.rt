//! What is asked for.
use pg_settle::Budget;

/// The game whose moves are to be tried, and how.
#[derive(Clone, Copy, Debug)]
pub struct MovesOrder<'a> {
    /// The name of the game's file.
    pub game: &'a str,
    /// How much the finder may use for each move.
    pub budget: Budget,
    /// Whether the moves are printed as one line of JSON.
    pub json: bool,
}
