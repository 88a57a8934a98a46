//! Nodes that come one by one.
ghost use Rattle.std.specs.Prelude.{◌≡◌, IfOk};

use crate::node::Node;
use pg_base::Memory;
use std::alloc::Global;
use std::marker::Model;

/// A node as a part of a certificate. It lies in a place of its own, so that a part is handed on
/// without its sets.
#[derive(Debug, Drop)]
pub struct NodePart {
    node: Box<Node>,
}

/// The node.
impl Model for NodePart {
    ghost use Rattle.pg_cert.specs.declared.node.Node.{Node};
    ghost use Rattle.pg_cert.specs.contracts.node.Node.{the_row};

    ghost Value = { Node };

    ghost coded = { the_row.coded };

    ghost view = { λ a. a.node.value };
}

impl NodePart {
    /// The node as a part.
    ///
    /// `Memory` means that memory was refused.
    pub fn new(alloc: Global, node: Node) -> Result<NodePart, Memory>
        ensures { IfOk result (λ part. part ≡ node) }
    {
        Ok(NodePart {
            node: Box::new(alloc, node)?,
        })
    }

    /// The node.
    pub fn as_node(&self) -> &Node
        ensures { result.now ≡ self.now }
    {
        &self.node
    }

    /// The node itself.
    pub fn into_node(self) -> Node
        ensures { result ≡ self }
    {
        Box::into_inner(self.node)
    }
}
