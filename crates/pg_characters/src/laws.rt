//! The laws of Bridg-It on paper. Each function is empty: what it promises is a law of the
//! definitions alone.
ghost use Rattle.std.specs.Prelude.{◌≡◌, ◌<◌, ◌≤◌, ◌+◌, ◌-◌, ℕ, Some, slice_get, true};
ghost use Rattle.pg_game.specs.declared.field.Field.TheVariants.{Graph as OnGraph};
ghost use Rattle.pg_gen.specs.Bridge.{bridge_field, has_bridge};
ghost use Rattle.pg_characters.specs.Bridges.{paper_rows, vertex_at};
ghost use Rattle.pg_characters.specs.Spots.{edge_column, edge_of, edge_row, edges_on, span_of};
ghost use Rattle.pg_characters.specs.Spots.{spot_at};
ghost use Rattle.pg_graph.specs.declared.graph.Graph.{Graph};

use crate::spots::Spot;
use pg_base::Side;

/// Bridg-It is drawn as it is on paper: each edge of the board of `r` rows has a place
/// (`somewhere`), and only that one (`once`). If a graph is drawn so, an edge over which X's stroke
/// leads across joins the vertices of the dots of X at its left and at its right (`across`), and
/// each other edge those of the dots above and below (`down`).
pub fn edges_have_their_places()
    ensures somewhere { (r e : ℕ) → 1 ≤ r → e < edges_on r
        → edge_of (spot_at r (edge_row r e) (edge_column r e)) ≡ Some e }
    ensures once { (r row column e : ℕ) → row < span_of r → column < span_of r
        → edge_of (spot_at r row column) ≡ Some e
        → (row ≡ edge_row r e) × (column ≡ edge_column r e) }
    ensures across { (h : Graph) → (r row column e : ℕ) → paper_rows h ≡ Some r
        → row < span_of r
        → column < span_of r
        → spot_at r row column ≡ Spot.Edge e Side.X
        → slice_get h.ends e ≡ Some (vertex_at r row (column - 1), vertex_at r row (column + 1)) }
    ensures down { (h : Graph) → (r row column e : ℕ) → paper_rows h ≡ Some r
        → row < span_of r
        → column < span_of r
        → spot_at r row column ≡ Spot.Edge e Side.Y
        → slice_get h.ends e ≡ Some (vertex_at r (row - 1) column, vertex_at r (row + 1) column) }
{}

/// The graph of each Bridg-It board that `bridge` of `pg_gen` makes is found to be the board of so
/// many rows, and so it is drawn as it is on paper.
pub fn bridges_are_found()
    ensures { (r : ℕ) → (h : Graph) → has_bridge r ≡ true → bridge_field r ≡ OnGraph h
        → paper_rows h ≡ Some r }
{}
