//! What is shown of a position, and how.
use pg_game::Position;
use pg_layout::Chart;

/// How many columns the texts take at most that are the same on each terminal.
pub const COLUMNS: u16 = 80;

/// How a board is shown.
#[derive(Clone, Copy, Debug)]
pub struct Look {
    /// How many characters the terminal has in a row.
    pub columns: u16,
    /// Whether marks are coloured.
    pub colour: bool,
    /// Where the points of a board without cells are. It is left alone on other boards, and on one
    /// with another number of points.
    pub layout: Option<Chart>,
}

/// A position, with the point that was claimed last.
#[derive(Clone, Copy, Debug)]
pub struct Shown {
    /// The position.
    pub position: Position,
    /// The point that was claimed last.
    pub last: Option<u16>,
    /// How it is shown.
    pub look: Look,
}
