//! Certificates with images, and their claims.
ghost use Rattle.std.specs.Prelude.{◌≡◌};

use crate::node::ImageNodes;
use pg_base::{Goal, Side};
use std::marker::Model;

/// That a side reaches a goal from a game's marks, and the nodes that show it, of which some may be
/// images of others.
#[derive(Debug, Drop)]
pub struct ImageClaim {
    /// The side to move first.
    pub turn: Side,
    /// The side that reaches the goal, the claimer.
    pub side: Side,
    /// What it reaches.
    pub goal: Goal,
    /// The nodes: 1 to 100,000.
    pub nodes: ImageNodes,
}

/// A list of claims with images.
#[derive(Debug, Drop)]
pub struct ImageClaims {
    members: Vec<ImageClaim>,
}

/// The claims in order.
impl Model for ImageClaims {
    ghost use Rattle.std.specs.Prelude.{List};
    ghost use Rattle.std.specs.Coded.{coded_list};
    ghost use Rattle.pg_image.specs.declared.cert.ImageClaim.{ImageClaim};
    ghost use Rattle.pg_image.specs.contracts.cert.ImageClaim.{the_row};

    ghost Value = { List ImageClaim };

    ghost coded = { coded_list the_row.coded };

    ghost view = { λ a. a.members.items };
}

impl ImageClaims {
    /// The list of these claims.
    pub fn from_vec(members: Vec<ImageClaim>) -> ImageClaims
        ensures { result ≡ members.items }
    {
        ImageClaims { members }
    }

    /// The claims in order.
    pub fn as_slice(&self) -> &[ImageClaim]
        ensures { result.now ≡ self.now }
    {
        self.members.as_slice()
    }
}

/// Claims of one game, in which nodes may be images of others: 1 to 8, with at most 200,000 nodes
/// together.
#[derive(Debug, Drop)]
pub struct ImageCert {
    /// The claims.
    pub claims: ImageClaims,
}
