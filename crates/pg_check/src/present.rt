//! The claim that is being checked.

use pg_base::{Goal, Side};
use pg_potential::Marks;

/// What a claim says, how many nodes it has, and the positions of those that have been checked.
#[derive(Debug, Drop)]
pub(crate) struct Present {
    /// The side to move first.
    pub(crate) turn: Side,
    /// The side that reaches the goal.
    pub(crate) side: Side,
    /// What it reaches.
    pub(crate) goal: Goal,
    /// How many nodes it has.
    pub(crate) count: u32,
    /// The positions of the nodes that have been checked.
    pub(crate) marks: Marks,
}
