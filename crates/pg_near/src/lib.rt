//! Which nodes of a claim are near the game's start, and claims in which these come last.
#![tactic(auto)]

mod arranging;
mod laws;
mod moving;
mod nearness;

pub use arranging::arrange;
pub use laws::{near_nodes_are_counted, nodes_are_moved, nodes_stay};
pub use nearness::{is_near, near_count};
