//! Two bases of one ground, exchanged along chains of links until no two bases share fewer elements
//! (Edmonds, Minimum partition of a matroid into independent subsets, 1965); and spanning forests
//! as bases of a graph.
#![tactic(auto)]

mod exchange;
mod graph_ground;
mod ground;
mod path;
mod search;
mod stars;
mod trees;

pub use exchange::Exchange;
pub use graph_ground::GraphGround;
pub use ground::Ground;
pub use trees::Trees;
