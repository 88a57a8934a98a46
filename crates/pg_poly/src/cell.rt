//! Cells of a board.
ghost use Rattle.std.specs.Prelude.{◌≡◌};
ghost use Rattle.pg_poly.specs.Cells.{is_next, share_side};

/// A cell, by its row and its column.
#[derive(Clone, Copy, Debug, PartialEq, Eq)]
pub struct Cell {
    /// The row, from 0.
    pub row: usize,
    /// The column, from 0.
    pub column: usize,
}

/// Whether the numbers are neighbours.
fn is_next(a: usize, b: usize) -> bool
    ensures { result ≡ is_next a b }
{
    a.abs_diff(b) == 1
}

impl Cell {
    /// Whether the two cells share a side.
    pub fn shares_side(self, other: Cell) -> bool
        ensures { result ≡ share_side self other }
    {
        self.row == other.row && is_next(self.column, other.column)
            || self.column == other.column && is_next(self.row, other.row)
    }
}
