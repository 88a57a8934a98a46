//! What a picture's items stand on.
use pg_base::Points;
use pg_captions::{Text, Texts};
use pg_graph::Ends;
use pg_layout::Chart;

/// What a game's points are drawn as.
#[derive(Debug, Drop)]
pub enum Board {
    /// The cells of a board of squares: the point in row r and column c, both from 0, is
    /// `r * width + c`.
    Grid {
        /// How many columns there are.
        width: u32,
        /// How many rows there are.
        height: u32,
    },
    /// So many points, in no place of their own.
    Ring {
        /// How many points there are.
        points: u32,
    },
    /// Points at the places of a layout.
    Laid {
        /// The place of each point.
        chart: Chart,
    },
    /// The edges of a multigraph, numbered from 0.
    Graph {
        /// How many vertices there are. They are the numbers below it.
        vertices: u32,
        /// The two ends of each edge.
        ends: Ends,
        /// The vertices that one side wants to join: two, or none where it wants to join all.
        terminals: Points,
        /// The number of rows of the Bridg-It board that the graph is, where it is one.
        bridge: Option<u32>,
    },
    /// Vectors, a row each.
    Table {
        /// The signs of each vector.
        rows: Texts,
        /// The signs of the target, which one side wants as a sum.
        target: Text,
    },
}
