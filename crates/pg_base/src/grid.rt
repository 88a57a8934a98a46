//! Boards of square cells.

/// A board of square cells: the cell in row r and column c, both from 0, is the point
/// `r * width + c`.
#[derive(Clone, Copy, Debug, PartialEq, Eq, Hash)]
pub struct Grid {
    /// How many columns there are.
    pub width: u16,
    /// How many rows there are.
    pub height: u16,
}
