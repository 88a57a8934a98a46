//! What a claim says before its nodes.

use pg_base::{Goal, Side};

/// What a claim says before its nodes, and how many they are.
#[derive(Clone, Copy, Debug, PartialEq, Eq)]
pub struct ClaimHead {
    /// The side to move first.
    pub turn: Side,
    /// The side that reaches the goal, the claimer.
    pub side: Side,
    /// What it reaches.
    pub goal: Goal,
    /// How many nodes the claim has: 1 to 100,000.
    pub nodes: u32,
}
