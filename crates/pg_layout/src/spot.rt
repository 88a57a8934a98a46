//! The places of points.
ghost use Rattle.std.specs.Prelude.{◌≡◌};

use std::marker::Model;

/// The greatest column, and the greatest line, of a place.
pub const MAX_STEPS: u16 = 999;

/// How many columns two places differ by at least, unless their lines differ enough.
pub const COLUMNS_APART: u16 = 4;

/// How many lines two places differ by at least, unless their columns differ enough.
pub const LINES_APART: u16 = 2;

/// The place of a point, in columns and lines of characters.
#[derive(Clone, Copy, Debug, PartialEq, Eq)]
pub struct Spot {
    /// How far it is from the left: 0 to `MAX_STEPS` columns in a layout that was read.
    pub column: u16,
    /// How far it is from the top: 0 to `MAX_STEPS` lines in a layout that was read.
    pub line: u16,
}

/// A layout: the place of each point of a board, in the order of the points.
#[derive(Debug, Drop)]
pub struct Spots {
    members: Vec<Spot>,
}

/// The places in order.
impl Model for Spots {
    ghost use Rattle.std.specs.Prelude.{List};
    ghost use Rattle.pg_layout.specs.declared.spot.Spot.{Spot};

    ghost Value = { List Spot };

    ghost view = { λ a. a.members.items };
}

impl Spots {
    /// Makes the layout of these places. Whether they are apart isn't checked.
    pub(crate) fn from_vec(members: Vec<Spot>) -> Spots
        ensures { result ≡ members.items }
    {
        Spots { members }
    }

    /// Returns the places in the order of the points.
    pub fn as_slice(&self) -> &[Spot]
        ensures { result.now ≡ self.now }
    {
        self.members.as_slice()
    }
}
