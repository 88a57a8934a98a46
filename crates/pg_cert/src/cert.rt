//! Certificates and their claims.
ghost use Rattle.std.specs.Prelude.{◌≡◌};

use crate::node::Nodes;
use pg_base::{Goal, Side};
use std::marker::Model;

/// That a side reaches a goal from a game's marks, and the nodes that show it.
#[derive(Debug, Drop)]
pub struct Claim {
    /// The side to move first.
    pub turn: Side,
    /// The side that reaches the goal, the claimer.
    pub side: Side,
    /// What it reaches.
    pub goal: Goal,
    /// The nodes: 1 to 100,000.
    pub nodes: Nodes,
}

/// A list of claims.
#[derive(Debug, Drop)]
pub struct Claims {
    members: Vec<Claim>,
}

/// The claims in order.
impl Model for Claims {
    ghost use Rattle.std.specs.Prelude.{List};
    ghost use Rattle.std.specs.Coded.{coded_list};
    ghost use Rattle.pg_cert.specs.declared.cert.Claim.{Claim};
    ghost use Rattle.pg_cert.specs.contracts.cert.Claim.{the_row};

    ghost Value = { List Claim };

    ghost coded = { coded_list the_row.coded };

    ghost view = { λ a. a.members.items };
}

impl Claims {
    /// The list of these claims.
    pub fn from_vec(members: Vec<Claim>) -> Claims
        ensures { result ≡ members.items }
    {
        Claims { members }
    }

    /// The claims in order.
    pub fn as_slice(&self) -> &[Claim]
        ensures { result.now ≡ self.now }
    {
        self.members.as_slice()
    }
}

/// A version of the format.
#[derive(Clone, Copy, Debug, PartialEq, Eq)]
pub enum Version {
    /// All bodies but `weaker`.
    One,
    /// All bodies.
    Two,
}

/// Claims of one game: 1 to 8, with at most 200,000 nodes together.
#[derive(Debug, Drop)]
pub struct Cert {
    /// The version of the format, which says what bodies its nodes may have.
    pub version: Version,
    /// The claims.
    pub claims: Claims,
}
