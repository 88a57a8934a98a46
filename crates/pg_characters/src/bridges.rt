//! Which graphs are Bridg-It boards.
ghost use Rattle.std.specs.Prelude.{◌≡◌, ◌≤◌, ◌<◌, ◌+◌, ◌*◌, IfSome};
ghost use Rattle.pg_gen.specs.declared.limits.TheConstants.{MAX_BRIDGE_ROWS};
ghost use Rattle.pg_characters.specs.Bridges.{fits_paper, fits_place, has_ends, is_bridge};
ghost use Rattle.pg_characters.specs.Bridges.{is_sized, paper_rows, spot_fits, vertex_at};
ghost use Rattle.pg_characters.specs.Spots.{span_of};

use crate::spots::{Spot, spot_at};
use pg_base::Side;
use pg_gen::MAX_BRIDGE_ROWS;
use pg_graph::Graph;

/// The vertex for which a dot of X is: the leftmost dots are the terminal 0, and the rightmost the
/// terminal 1.
fn vertex_at(rows: u16, row: u16, column: u16) -> u16
    requires some { 1 ≤ rows }
    requires few { rows ≤ MAX_BRIDGE_ROWS }
    requires row { row ≤ 2 * rows + 1 }
    requires column { column ≤ 2 * rows + 1 }
    ensures { result ≡ vertex_at rows row column }
{
    let place = column / 2;
    if place == 0 {
        0
    } else if place == rows {
        1
    } else {
        2 + (row / 2 * (rows - 1) + (place - 1))
    }
}

/// Whether the edge has these two ends in this order.
fn has_ends(graph: &Graph, edge: u16, one: u16, other: u16) -> bool
    ensures { result ≡ has_ends graph.now.ends edge one other }
{
    match graph.ends.as_slice().get(edge as usize) {
        Some(ends) => ends.0 == one && ends.1 == other,
        None => false,
    }
}

/// Whether the edge joins the vertices of the dots of X beside its place: those at the left and at
/// the right, or those above and below.
fn joins_dots(graph: &Graph, rows: u16, row: u16, column: u16, spot: Spot) -> bool
    requires some { 1 ≤ rows }
    requires few { rows ≤ MAX_BRIDGE_ROWS }
    requires row { row ≤ 2 * rows }
    requires column { column ≤ 2 * rows }
    ensures { result ≡ spot_fits graph.now rows row column spot }
{
    match spot {
        Spot::Edge {
            number,
            across: Side::X,
        } => {
            let left = vertex_at(rows, row, column.saturating_sub(1));
            let right = vertex_at(rows, row, column + 1);
            has_ends(graph, number, left, right)
        }
        Spot::Edge {
            number,
            across: Side::Y,
        } => {
            let above = vertex_at(rows, row.saturating_sub(1), column);
            let below = vertex_at(rows, row + 1, column);
            has_ends(graph, number, above, below)
        }
        _ => true,
    }
}

/// Whether the edge at a place, if one is there, joins the vertices of the dots of X beside it.
fn fits_place(graph: &Graph, rows: u16, place: u16) -> bool
    requires some { 1 ≤ rows }
    requires few { rows ≤ MAX_BRIDGE_ROWS }
    requires place { place < span_of rows * span_of rows }
    ensures { result ≡ fits_place graph.now rows place }
{
    let span = 2 * rows + 1;
    let row = place / span;
    let column = place % span;
    joins_dots(graph, rows, row, column, spot_at(rows, row, column))
}

/// Whether each edge that is at a place joins the vertices of the dots of X beside it.
#[tactic(auto, unfolding(crate::specs::Bridges::fits_paper))]
fn fits_paper(graph: &Graph, rows: u16) -> bool
    requires some { 1 ≤ rows }
    requires few { rows ≤ MAX_BRIDGE_ROWS }
    ensures { result ≡ fits_paper graph.now rows }
{
    let span = 2 * rows + 1;
    for place in 0..span * span {
        if !fits_place(graph, rows, place) {
            return false;
        }
    }
    true
}

/// Whether the graph has the vertices, the terminals and the number of edges of the Bridg-It board
/// of `rows` rows.
fn is_sized(graph: &Graph, rows: u16) -> bool
    requires some { 1 ≤ rows }
    requires few { rows ≤ MAX_BRIDGE_ROWS }
    ensures { result ≡ is_sized graph.now rows }
{
    graph.vertices == rows * (rows - 1) + 2
        && graph.s == 0
        && graph.t == 1
        && graph.ends.as_slice().len() == usize::from(rows * rows + (rows - 1) * (rows - 1))
}

/// Whether the graph is the Bridg-It board of `rows` rows.
fn is_bridge(graph: &Graph, rows: u16) -> bool
    requires some { 1 ≤ rows }
    requires few { rows ≤ MAX_BRIDGE_ROWS }
    ensures { result ≡ is_bridge graph.now rows }
{
    is_sized(graph, rows) && fits_paper(graph, rows)
}

/// The number of rows of the Bridg-It board that the graph is, if it is one.
#[tactic(auto, unfolding(crate::specs::Bridges::paper_rows))]
pub fn paper_rows(graph: &Graph) -> Option<u16>
    ensures rows { result ≡ paper_rows graph.now }
    ensures range { IfSome result (λ rows. (1 ≤ rows) × (rows ≤ MAX_BRIDGE_ROWS)) }
{
    for rows in 1..MAX_BRIDGE_ROWS as u16 + 1 {
        if is_bridge(graph, rows) {
            return Some(rows);
        }
    }
    None
}
