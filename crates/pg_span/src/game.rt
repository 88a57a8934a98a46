//! Connectivity games.
ghost use Rattle.pg_span.specs.Fits.{AreSpanParts};

use pg_base::{PointSet, Side};
use pg_graph::Graph;

/// A connectivity game: X tries to join every two vertices of a multigraph by its edges, and Y
/// tries to prevent that.
///
/// The graph has 2 to 500 vertices and at most 1,000 edges, which are the points. The sides have
/// different edges.
#[derive(Debug, Drop)]
pub struct SpanGame {
    /// The multigraph. Its terminals are 0 and 1, and play no part.
    pub graph: Graph,
    /// X's edges.
    pub x: PointSet,
    /// Y's edges.
    pub y: PointSet,
    /// Who is to move.
    pub turn: Side,
    ghost fits: { AreSpanParts graph x y },
}
