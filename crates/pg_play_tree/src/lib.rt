//! The tree of play of a switching game's certificate: what the players of its claims do, whatever
//! the other side replies, as a certificate of moves, replies and ends alone.
//!
//! Two trees or two cuts say in one node how a side wins. A reader who wants to see it move by move
//! is better served by the positions to which that leads. The tree is found by running the player
//! of each claim along each line of replies, and is checked like any other certificate.
#![tactic(auto)]

mod exploring;
mod nodes;
mod place;
mod tree;
mod turned;

pub use tree::play_tree;
