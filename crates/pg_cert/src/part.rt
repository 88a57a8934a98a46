//! The parts of a certificate, in the order of its lines.

use crate::node_part::NodePart;
use pg_base::{Goal, Side};

/// A claim with the number of its nodes, or a node.
#[derive(Debug, Drop)]
pub enum Part {
    /// A claim, whole with its `nodes` line.
    Claim {
        /// The side to move first.
        turn: Side,
        /// The side that reaches the goal, the claimer.
        side: Side,
        /// What it reaches.
        goal: Goal,
        /// How many nodes follow: 1 to 100,000.
        nodes: u32,
    },
    /// A node of the claim before it.
    Node(NodePart),
}
