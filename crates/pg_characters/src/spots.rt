//! What is at each place of a Bridg-It board on paper.
ghost use Rattle.std.specs.Prelude.{◌≡◌, ◌<◌, ◌≤◌, ◌+◌, ◌-◌, ◌*◌};
ghost use Rattle.pg_gen.specs.declared.limits.TheConstants.{MAX_BRIDGE_ROWS};
ghost use Rattle.pg_base.specs.declared.limits.TheConstants.{MAX_MEMBERS};
ghost use Rattle.pg_characters.specs.Spots.{HasEdgeBelow, is_odd, spot_at, spot_between};

use pg_base::Side;

/// What is at a place of a Bridg-It board.
#[derive(Clone, Copy, Debug, PartialEq, Eq)]
pub(crate) enum Spot {
    /// A corner, where nothing is.
    Blank,
    /// A dot of a side.
    Dot(Side),
    /// A stroke between outer dots of a side, which are joined from the start.
    Border(Side),
    /// The place of an edge.
    Edge {
        /// The number of the edge.
        number: u16,
        /// The side whose stroke leads across; that of the other side leads down.
        across: Side,
    },
}

/// Whether the number is odd.
fn is_odd(number: u16) -> bool
    ensures { result ≡ is_odd number }
{
    number % 2 == 1
}

/// The number of an edge between two rows of X's dots, among these edges.
fn inner_edge(rows: u16, row: u16, column: u16) -> u16
    requires some { 1 ≤ rows }
    requires few { rows ≤ MAX_BRIDGE_ROWS }
    requires row { row ≤ rows }
    requires column { column ≤ rows }
    ensures number { result ≡ (row - 1) * (rows - 1) + (column - 1) }
    ensures few { result < 512 }
{
    row.saturating_sub(1) * (rows - 1) + column.saturating_sub(1)
}

/// What is in an even row and an even column.
fn spot_between(rows: u16, row: u16, column: u16) -> Spot
    requires some { 1 ≤ rows }
    requires few { rows ≤ MAX_BRIDGE_ROWS }
    requires row { row ≤ 2 * rows }
    requires column { column ≤ 2 * rows }
    ensures spot { result ≡ spot_between rows row column }
    ensures few { HasEdgeBelow MAX_MEMBERS result }
{
    let is_outer_row = row == 0 || row == 2 * rows;
    let is_outer_column = column == 0 || column == 2 * rows;
    match (is_outer_row, is_outer_column) {
        (true, true) => Spot::Blank,
        (true, false) => Spot::Border(Side::Y),
        (false, true) => Spot::Border(Side::X),
        (false, false) => Spot::Edge {
            number: rows * rows + inner_edge(rows, row / 2, column / 2),
            across: Side::Y,
        },
    }
}

/// What is at a place of the board of `rows` rows. Rows and columns of places have numbers from 0
/// to twice `rows`; X's dots are in odd rows and even columns, and O's in even rows and odd
/// columns.
pub(crate) fn spot_at(rows: u16, row: u16, column: u16) -> Spot
    requires some { 1 ≤ rows }
    requires few { rows ≤ MAX_BRIDGE_ROWS }
    requires row { row ≤ 2 * rows }
    requires column { column ≤ 2 * rows }
    ensures spot { result ≡ spot_at rows row column }
    ensures few { HasEdgeBelow MAX_MEMBERS result }
{
    match (is_odd(row), is_odd(column)) {
        (true, true) => Spot::Edge {
            number: row / 2 * rows + column / 2,
            across: Side::X,
        },
        (true, false) => Spot::Dot(Side::X),
        (false, true) => Spot::Dot(Side::Y),
        (false, false) => spot_between(rows, row, column),
    }
}
