//! Games on vectors.
ghost use Rattle.std.specs.Prelude.{◌≡◌};
ghost use Rattle.pg_gf2.specs.Fits.{AreVectorParts};

use pg_base::{PointSet, Side};
use std::marker::Model;

/// How many signs a vector has at most.
pub const MAX_ROWS: u8 = 128;

/// How many vectors a game has at most.
pub const MAX_VECTORS: usize = 1_000;

/// A list of vectors, each a number whose bits are its signs.
#[derive(Debug, Drop)]
pub struct Vectors {
    members: Vec<u128>,
}

/// The vectors in order.
impl Model for Vectors {
    ghost use Rattle.std.specs.Prelude.{ℕ, List};

    ghost Value = { List ℕ };

    ghost view = { λ a. a.members.items };
}

impl Vectors {
    /// The list of these vectors.
    pub fn from_vec(members: Vec<u128>) -> Vectors
        ensures { result ≡ members.items }
    {
        Vectors { members }
    }

    /// The vectors in order.
    pub fn as_slice(&self) -> &[u128]
        ensures { result.now ≡ self.now }
    {
        self.members.as_slice()
    }
}

/// A switching game on vectors over two elements: X wins where the target is a sum of some of X's
/// vectors.
#[derive(Debug, Drop)]
pub struct VecGame {
    /// How many signs a vector has.
    pub rows: u8,
    /// What X wants as a sum.
    pub target: u128,
    /// The vectors, which are the points.
    pub vectors: Vectors,
    /// X's vectors.
    pub x: PointSet,
    /// Y's vectors.
    pub y: PointSet,
    /// Who is to move.
    pub turn: Side,
    ghost fits: { AreVectorParts rows target vectors x y },
}
