//! Nodes of claims, as a search keeps them.
ghost use Rattle.std.specs.Prelude.{◌≡◌};
ghost use Rattle.pg_leaf.specs.Prelude.{position_of};

use crate::key::Key;
use pg_cert::{Body, Node};
use std::marker::Model;

/// A node of a claim with its position in few words.
#[derive(Debug, Drop)]
pub struct KeptNode {
    key: Key,
    body: Body,
}

/// The node.
impl Model for KeptNode {
    ghost use Rattle.pg_cert.specs.declared.node.Node.{Node};
    ghost use Rattle.pg_cert.specs.contracts.node.Node as node;

    ghost Value = { Node };

    ghost coded = { node.the_row.coded };

    ghost view = { λ a. record {
      x = a.key.x;
      y = a.key.y;
      turn = a.key.turn;
      left = a.key.left;
      body = a.body;
    } };
}

impl KeptNode {
    /// The node of a position.
    pub fn new(key: Key, body: Body) -> KeptNode
        ensures position { position_of result ≡ key }
        ensures body { result.body ≡ body }
    {
        KeptNode { key, body }
    }

    /// Why the claimer reaches its goal.
    pub(crate) fn body(&self) -> &Body
        ensures { result.now ≡ self.now.body }
    {
        &self.body
    }

    /// The node of the same position with another body.
    pub(crate) fn with_body(&self, body: Body) -> Node
        ensures position { position_of result ≡ position_of self.now }
        ensures body { result.body ≡ body }
    {
        let p = self.key.position();
        Node {
            x: p.x,
            y: p.y,
            turn: p.turn,
            left: p.left,
            body,
        }
    }
}
