//! What is asked for.

/// How many positions a game is split into at most where no number is given.
pub const DEFAULT_PIECES: u32 = 1_000;

/// The game that is to be split, and how.
#[derive(Clone, Copy, Debug)]
pub struct SplitOrder<'a> {
    /// The name of the game's file.
    pub game: &'a str,
    /// The folder of the plan and its files.
    pub folder: &'a str,
    /// How many positions may be written.
    pub most: u32,
}
