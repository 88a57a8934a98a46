//! Joining: the certificates of the positions into which a game was split are read and judged, and
//! their proofs joined to one of the game, along the plan of the split.
#![tactic(auto)]

mod choosing;
mod folder;
mod joined;
mod joiner;
mod limits;
mod needed;
mod nodes;
mod pieces;
mod renumbering;
mod survey;

pub use joiner::Joiner;
pub use needed::Needed;
