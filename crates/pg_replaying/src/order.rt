//! What is asked for.

/// Which recorded game is to be drawn.
#[derive(Clone, Copy, Debug)]
pub struct RecordOrder<'a> {
    /// The name of the game's file.
    pub game: &'a str,
    /// The name of the record's file.
    pub record: &'a str,
    /// After how many of the moves that aren't taken back it is drawn; after all if none is given.
    pub moves: Option<u32>,
}
