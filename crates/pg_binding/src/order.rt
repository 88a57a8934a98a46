//! What is asked for.
use pg_layout::Chart;

/// Which proof is to be printed as a book.
#[derive(Clone, Copy, Debug)]
pub struct BookOrder<'a> {
    /// The name of the game's file.
    pub game: &'a str,
    /// The name of the certificate's file.
    pub certificate: &'a str,
    /// Where the points of a game on lines without a grid lie in its book, if there is a place for
    /// each.
    pub layout: Option<Chart>,
    /// After how many further points at most the positions are that the book of a game on lines or
    /// of a switching game shows; it shows all if none is given.
    pub depth: Option<u32>,
}
