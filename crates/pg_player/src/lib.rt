//! Play by a claim of a checked certificate: a player makes the claimer's own moves, whatever the
//! other side replies.
//!
//! At each node of the claim the rule of its body gives the move: the node's own, the answer by
//! pairs, by a potential, by trees or by cuts, or along a threat line the next attack, or the point
//! that a reply left. From a node that rests on a weaker position the player goes on there, and
//! imagines that position. The moves are legal, and where the game is over its outcome reaches the
//! claim's goal.
#![tactic(auto)]

mod choice;
mod moves;
mod player;
mod rule;
mod standing;

pub use player::{OpenFault, Player};
pub use rule::Rule;
