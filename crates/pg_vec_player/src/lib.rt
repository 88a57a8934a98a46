//! Play on vectors over two elements: one side's own moves by a checked claim.
#![tactic(auto)]

mod judge;
mod moves;
mod player;

pub use player::{VecOpen, VecPlayer};
