//! The cells of a shape that lie farthest in each direction.
ghost use Rattle.std.specs.Prelude.{◌≡◌, ◌<◌, List, false, length};
ghost use Rattle.std.specs.List.{Contains};
ghost use Rattle.pg_poly.specs.Corners.{AreAmong, AreMovable, are_near};
ghost use Rattle.pg_poly.specs.declared.cell.Cell.{Cell};

use crate::cell::Cell;
use crate::motion::Motion;
use pg_base::Grid;

/// Four cells: none is above the first, below the second, left of the third or right of the fourth.
#[derive(Clone, Copy, Debug)]
pub(crate) struct Corners {
    /// A cell of the least row.
    pub top: Cell,
    /// A cell of the greatest row.
    pub bottom: Cell,
    /// A cell of the least column.
    pub left: Cell,
    /// A cell of the greatest column.
    pub right: Cell,
}

/// The first cell where it is asked for, and else the second.
fn one_of(first: bool, a: Cell, b: Cell) -> Cell
    ensures among { (cells : List Cell) → Contains cells a → Contains cells b
        → Contains cells result }
{
    if first { a } else { b }
}

impl Corners {
    /// The corners with one cell more.
    fn with(self, cell: Cell) -> Corners
        ensures among { (cells : List Cell) → AreAmong self cells → Contains cells cell
            → AreAmong result cells }
    {
        let Corners {
            top,
            bottom,
            left,
            right,
        } = self;
        Corners {
            top: one_of(cell.row < top.row, cell, top),
            bottom: one_of(cell.row > bottom.row, cell, bottom),
            left: one_of(cell.column < left.column, cell, left),
            right: one_of(cell.column > right.column, cell, right),
        }
    }

    /// The corners of some cells.
    pub(crate) fn of(cells: &[Cell]) -> Corners
        requires { 0 < length cells.now }
        ensures among { AreAmong result cells.now }
    {
        let first = cells[0];
        let mut corners = Corners {
            top: first,
            bottom: first,
            left: first,
            right: first,
        };
        for cell in cells {
            corners = corners.with(*cell);
        }
        corners
    }

    /// Whether the corners are no farther apart than the grid is high and wide.
    pub(crate) fn can_fit(self, grid: Grid) -> bool
        ensures { result ≡ are_near grid self }
    {
        self.top.row.abs_diff(self.bottom.row) < usize::from(grid.height)
            && self.left.column.abs_diff(self.right.column) < usize::from(grid.width)
    }

    /// Whether the motion brings the corners into the grid.
    pub(crate) fn are_movable(self, grid: Grid, motion: Motion) -> bool
        ensures { result ≡ false → ¬ AreMovable grid motion self }
    {
        motion.moved(self.top, grid).is_some()
            && motion.moved(self.bottom, grid).is_some()
            && motion.moved(self.left, grid).is_some()
            && motion.moved(self.right, grid).is_some()
    }
}
