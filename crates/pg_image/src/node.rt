//! Nodes that may be images of others.
ghost use Rattle.std.specs.Prelude.{◌≡◌};
ghost use Rattle.pg_image.specs.Node.{image_node_position};

use pg_base::{PointSet, Side};
use pg_cert::Node;
use pg_game::Position;
use pg_maps::GridMap;
use std::marker::Model;

/// A node that shows by itself why its claimer reaches the goal, or the image of another.
#[derive(Debug, Drop)]
pub enum ImageNode {
    /// A node with a body of its own.
    Plain(Node),
    /// The position is the image of another node's under a map of the board.
    Image {
        /// X's points.
        x: PointSet,
        /// Y's points.
        y: PointSet,
        /// The side to move.
        turn: Side,
        /// How many points the side to move still claims in this turn: 1, and for Y up to 7.
        left: u8,
        /// The map that takes the other node's position to this one.
        map: GridMap,
        /// The number of the other node: 0 to 99,999.
        child: u32,
    },
}

impl ImageNode {
    /// The position that the node speaks of.
    pub fn position(&self) -> Position
        ensures { result ≡ image_node_position self.now }
    {
        match self {
            ImageNode::Plain(node) => node.position(),
            ImageNode::Image {
                x,
                y,
                turn,
                left,
                ..
            } => Position {
                x: *x,
                y: *y,
                turn: *turn,
                left: *left,
            },
        }
    }
}

/// The nodes of a claim; the last is its root.
#[derive(Debug, Drop)]
pub struct ImageNodes {
    members: Vec<ImageNode>,
}

/// The nodes in order.
impl Model for ImageNodes {
    ghost use Rattle.std.specs.Prelude.{List};
    ghost use Rattle.std.specs.Coded.{coded_list};
    ghost use Rattle.pg_image.specs.declared.node.ImageNode.{ImageNode};
    ghost use Rattle.pg_image.specs.contracts.node.ImageNode.{the_row};

    ghost Value = { List ImageNode };

    ghost coded = { coded_list the_row.coded };

    ghost view = { λ a. a.members.items };
}

impl ImageNodes {
    /// The list of these nodes.
    pub fn from_vec(members: Vec<ImageNode>) -> ImageNodes
        ensures { result ≡ members.items }
    {
        ImageNodes { members }
    }

    /// The nodes in order.
    pub fn as_slice(&self) -> &[ImageNode]
        ensures { result.now ≡ self.now }
    {
        self.members.as_slice()
    }
}
