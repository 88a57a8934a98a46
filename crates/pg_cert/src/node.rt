//! The nodes of a claim.
ghost use Rattle.std.specs.Prelude.{◌≡◌};
ghost use Rattle.pg_cert.specs.Node.{position_of};
ghost use Rattle.pg_cert.specs.Valid.{with_e_named};

use crate::edge_set::EdgeSet;
use crate::reply::Replies;
use pg_base::{Pairs, PointSet, Points, Side};
use pg_game::{Game, Position};
use std::marker::Model;

/// Why the claimer reaches its goal from a node's position.
#[derive(Debug, Drop)]
pub enum Body {
    /// The game is over, with a score that reaches the goal.
    Over,
    /// The claimer takes a point, and goes on from another node.
    Move {
        /// The point: 0 to 1,023.
        point: u16,
        /// The number of the node that follows: 0 to 99,999.
        child: u32,
    },
    /// The other side takes any free point; each is followed by a node.
    All(Replies),
    /// The claimer answers each point of a pair with the other.
    Pairs(Pairs),
    /// The sum of weights is small enough (Erdős and Selfridge, 1973).
    Potential,
    /// Two sets of edges join the terminals (Lehman, 1964).
    Trees {
        /// Whether the first set holds the further edge between the terminals.
        with_e: bool,
        /// The edges of the first set, apart from that one.
        first: EdgeSet,
        /// The edges of the second set.
        second: EdgeSet,
    },
    /// Two sets of edges part the terminals.
    Cuts {
        /// Whether the first set holds the further edge between the terminals.
        with_e: bool,
        /// The edges of the first set, apart from that one.
        first: EdgeSet,
        /// The edges of the second set.
        second: EdgeSet,
    },
    /// The claimer's moves of a line of threats, each with the answer that it forces; the last
    /// fills a line.
    Threat(Points),
    /// The position is no worse for the claimer than that of another node. It stands in version 2
    /// alone.
    Weaker {
        /// The number of that node: 0 to 99,999.
        child: u32,
    },
}

/// A position and why the claimer reaches its goal from it.
#[derive(Debug, Drop)]
pub struct Node {
    /// X's points.
    pub x: PointSet,
    /// Y's points.
    pub y: PointSet,
    /// The side to move.
    pub turn: Side,
    /// How many points the side to move still claims in this turn: 1, and for Y up to 7.
    pub left: u8,
    /// Why the claimer reaches its goal.
    pub body: Body,
}

impl Node {
    /// The position that the node speaks of.
    pub fn position(&self) -> Position
        ensures { result ≡ position_of self.now }
    {
        Position {
            x: self.x,
            y: self.y,
            turn: self.turn,
            left: self.left,
        }
    }
}

/// The first set of edges that a node names, with the further edge between the terminals where it
/// says so. That edge's number is the number of the game's edges.
pub fn with_e_named(g: &Game, with_e: bool, first: &PointSet) -> PointSet
    ensures { result ≡ with_e_named g.now with_e first.now }
{
    let mut members = *first;
    if with_e {
        members.put(g.points());
    }
    members
}

/// The nodes of a claim; the last is its root.
#[derive(Debug, Drop)]
pub struct Nodes {
    members: Vec<Node>,
}

/// The nodes in order.
impl Model for Nodes {
    ghost use Rattle.std.specs.Prelude.{List};
    ghost use Rattle.std.specs.Coded.{coded_list};
    ghost use Rattle.pg_cert.specs.declared.node.Node.{Node};
    ghost use Rattle.pg_cert.specs.contracts.node.Node.{the_row};

    ghost Value = { List Node };

    ghost coded = { coded_list the_row.coded };

    ghost view = { λ a. a.members.items };
}

impl Nodes {
    /// The list of these nodes.
    pub fn from_vec(members: Vec<Node>) -> Nodes
        ensures { result ≡ members.items }
    {
        Nodes { members }
    }

    /// The nodes in order.
    pub fn as_slice(&self) -> &[Node]
        ensures { result.now ≡ self.now }
    {
        self.members.as_slice()
    }
}
