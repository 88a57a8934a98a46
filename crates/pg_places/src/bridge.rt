//! Places on the boards of Bridg-It.
ghost use Rattle.std.specs.Prelude.{◌≡◌, ◌+◌, ◌≤◌, ◌<◌, ◌^◌};
ghost use Rattle.pg_places.specs.Prelude.{MAX_BRIDGE_ROWS};
ghost use Rattle.pg_places.specs.Places.{IsWithin, columns_of, column_of, place_on_bridge, row_of};

use crate::measures::{APART, HALF, MARGIN, MAX_END_REACH, TOP};
use pg_picture::Place;

/// How many columns of inner vertices there are.
pub fn columns_of(rows: u32) -> u32
    requires { rows ≤ MAX_BRIDGE_ROWS }
    ensures columns { result ≡ columns_of rows }
    ensures some { 1 ≤ result }
    ensures few { result ≤ MAX_BRIDGE_ROWS }
{
    rows.saturating_sub(1).max(1)
}

/// The column of a vertex: terminal 0 is left of the inner vertices, and terminal 1 right of them.
fn column_of(rows: u32, vertex: u16) -> u32
    requires { rows ≤ MAX_BRIDGE_ROWS }
    ensures column { result ≡ column_of rows vertex }
    ensures few { result ≤ MAX_BRIDGE_ROWS + 1 }
{
    let columns = columns_of(rows);
    if vertex == 0 {
        0
    } else if vertex == 1 {
        columns + 1
    } else {
        u32::from(vertex - 2) % columns + 1
    }
}

/// The row in which an edge leaves a vertex: a terminal is left in the row of the edge's other end.
fn row_of(rows: u32, vertex: u16, other: u16) -> u32
    requires { rows ≤ MAX_BRIDGE_ROWS }
    ensures row { result ≡ row_of rows vertex other }
    ensures few { result < 2 ^ 16 }
{
    let columns = columns_of(rows);
    if vertex >= 2 {
        u32::from(vertex - 2) / columns
    } else if other >= 2 {
        u32::from(other - 2) / columns
    } else {
        rows
    }
}

/// The place at which an edge leaves a vertex.
#[tactic(auto, unfolding(crate::specs::Places::place_on_bridge))]
pub fn place_on_bridge(rows: u32, vertex: u16, other: u16) -> Place
    requires { rows ≤ MAX_BRIDGE_ROWS }
    ensures place { result ≡ place_on_bridge rows vertex other }
    ensures near { IsWithin MAX_END_REACH result }
{
    Place {
        across: MARGIN + HALF + APART * column_of(rows, vertex),
        down: TOP + HALF + APART * row_of(rows, vertex, other),
    }
}
