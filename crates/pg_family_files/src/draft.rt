//! What the lines of a file have said so far.
ghost use Rattle.std.specs.Prelude.{◌≤◌, length};
ghost use Rattle.pg_family_files.specs.Prelude.{MAX_EDGES, MAX_VERTICES, MAX_ROWS, MAX_VECTORS};

use pg_base::{PointSet, Side};

/// What the lines of a file have said so far. Of the parts that one family alone has, the other
/// says nothing.
#[derive(Debug, Drop)]
pub struct Draft {
    /// Whether the header has stood.
    pub begun: bool,
    /// The greatest rank of a key, 0 before the first.
    pub rank: u8,
    /// How many vertices there are, 0 before that is said.
    pub vertices: u16,
    /// The ends of each edge, in the order given.
    pub ends: Vec<(u16, u16)>,
    /// How many signs a vector has, 0 before that is said.
    pub rows: u8,
    /// What X wants as a sum.
    pub target: u128,
    /// The vectors.
    pub vectors: Vec<u128>,
    /// X's marks.
    pub x: PointSet,
    /// Y's marks.
    pub y: PointSet,
    /// The side to move, where it is said.
    pub turn: Option<Side>,
    ghost few_vertices: { vertices ≤ MAX_VERTICES },
    ghost few_edges: { length ends.items ≤ MAX_EDGES },
    ghost few_rows: { rows ≤ MAX_ROWS },
    ghost few_vectors: { length vectors.items ≤ MAX_VECTORS },
}
