//! Multigraphs with two terminals: which vertices a set of edges joins, and which edges cross, part
//! and bridge.
#![tactic(auto)]

mod components;
mod graph;
mod joiner;
mod joins;

pub use components::labels;
pub use graph::{Ends, Graph};
pub use joiner::Joiner;
