//! What a claim line says.

use pg_base::{Goal, Side};

/// What a claim line says.
#[derive(Clone, Copy, Debug, PartialEq, Eq)]
pub struct Head {
    /// The side to move first.
    pub turn: Side,
    /// The side that reaches the goal.
    pub side: Side,
    /// What it reaches.
    pub goal: Goal,
}
