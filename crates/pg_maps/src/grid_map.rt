//! The eight maps of a board of square cells.
ghost use Rattle.std.specs.Prelude.{◌≡◌, ◌<◌, ◌≤◌, ◌*◌, ◌↔◌, nat_lt, if◌then◌else◌, Some, None};
ghost use Rattle.std.specs.Prelude.{IsTrue};
ghost use Rattle.pg_base.specs.declared.limits.TheConstants.{MAX_MEMBERS};
ghost use Rattle.pg_maps.specs.GridMaps.{turned};

use pg_base::{Grid, MAX_MEMBERS};

/// How many maps there are.
pub const MAP_COUNT: u8 = 8;

/// A symmetry of the square or of the rectangle, as a map of the cells of a board: rows and columns
/// are exchanged first, where `exchange` says so, and then the rows, the columns or both may be put
/// in reverse order.
#[derive(Clone, Copy, Debug, PartialEq, Eq)]
pub struct GridMap {
    /// Whether rows and columns are exchanged first.
    pub exchange: bool,
    /// Whether the rows then stand in reverse order.
    pub rows: bool,
    /// Whether the columns then stand in reverse order.
    pub columns: bool,
}

impl GridMap {
    ghost use Rattle.pg_maps.specs.GridMaps.{numbered, number_of, IsMapOf, image_of, image_row};
    ghost use Rattle.pg_maps.specs.GridMaps.{image_column, followed_by, reverse_of};

    /// The map of a number, and None exactly where the number is above 7. With r and c the row and
    /// the column of a cell of a board of width w and height h, both from 0, map 0 gives (r, c),
    /// map 1 (r, w - 1 - c), map 2 (h - 1 - r, c) and map 3 (h - 1 - r, w - 1 - c); map 4 + k
    /// exchanges r and c and then does map k.
    pub fn from_number(number: u8) -> Option<GridMap>
        ensures { result ≡ (if nat_lt number 8 then Some (numbered number) else None) }
    {
        if number < MAP_COUNT {
            Some(GridMap::numbered(number))
        } else {
            None
        }
    }

    /// The map of a number from 0 to 7.
    pub(crate) fn numbered(number: u8) -> GridMap
        ensures { result ≡ numbered number }
    {
        GridMap {
            exchange: number >= 4,
            rows: number / 2 % 2 == 1,
            columns: number % 2 == 1,
        }
    }

    /// The number of the map, from 0 to 7.
    pub fn number(self) -> u8
        ensures number { result ≡ number_of self }
        ensures few { result < 8 }
    {
        4 * u8::from(self.exchange) + 2 * u8::from(self.rows) + u8::from(self.columns)
    }

    /// This map first, and then the next one.
    pub fn followed_by(self, next: GridMap) -> GridMap
        ensures { result ≡ followed_by self next }
    {
        let (rows, columns) = if next.exchange {
            (self.columns, self.rows)
        } else {
            (self.rows, self.columns)
        };
        GridMap {
            exchange: self.exchange != next.exchange,
            rows: rows != next.rows,
            columns: columns != next.columns,
        }
    }

    /// The map that undoes this one.
    pub fn reverse(self) -> GridMap
        ensures { result ≡ reverse_of self }
    {
        if !self.exchange {
            return self;
        }
        GridMap {
            exchange: true,
            rows: self.columns,
            columns: self.rows,
        }
    }

    /// Whether it is a map of the board: rows and columns are exchanged only where there are as
    /// many of both.
    pub fn is_map_of(self, grid: Grid) -> bool
        ensures { IsTrue result ↔ IsMapOf grid self }
    {
        !self.exchange || grid.width == grid.height
    }

    /// The point to which a point goes under a map of the board; a number that isn't one of a cell
    /// stays.
    pub fn image_of(self, grid: Grid, point: u16) -> u16
        requires map { IsMapOf grid self }
        requires few { grid.width * grid.height ≤ MAX_MEMBERS }
        ensures image { result ≡ image_of self grid point }
        ensures small { point < MAX_MEMBERS → result < MAX_MEMBERS }
    {
        if point >= grid.width * grid.height {
            return point;
        }
        let (row, column) = self.image_of_cell(grid, point / grid.width, point % grid.width);
        row * grid.width + column
    }

    /// The row and the column to which the cell of a row and a column goes.
    fn image_of_cell(self, grid: Grid, row: u16, column: u16) -> (u16, u16)
        requires map { IsMapOf grid self }
        requires row { row < grid.height }
        requires column { column < grid.width }
        ensures row { result.0 ≡ image_row self grid row column }
        ensures column { result.1 ≡ image_column self grid row column }
        ensures high { result.0 < grid.height }
        ensures wide { result.1 < grid.width }
    {
        if self.exchange {
            (
                from_either_end(self.rows, grid.height, column),
                from_either_end(self.columns, grid.width, row),
            )
        } else {
            (
                from_either_end(self.rows, grid.height, row),
                from_either_end(self.columns, grid.width, column),
            )
        }
    }
}

/// The place among so many, counted from the other end where the order is reversed.
fn from_either_end(reversed: bool, count: u16, place: u16) -> u16
    requires { place < count }
    ensures place { result ≡ turned reversed count place }
    ensures range { result < count }
{
    if reversed { count - 1 - place } else { place }
}
