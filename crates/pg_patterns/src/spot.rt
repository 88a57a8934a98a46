//! Positions as the search knows them.

use crate::small_set::SmallSet;
use pg_base::Side;

/// The points of both sides, and the side to move.
#[derive(Clone, Copy, Debug, PartialEq, Eq, Hash)]
pub struct Spot {
    /// X's points.
    pub x: SmallSet,
    /// Y's points.
    pub y: SmallSet,
    /// The side to move.
    pub turn: Side,
}

impl Spot {
    /// The points that a side has.
    pub fn points_of(&self, side: Side) -> SmallSet {
        match side {
            Side::X => self.x,
            Side::Y => self.y,
        }
    }

    /// The points that are taken.
    pub fn taken(&self) -> SmallSet {
        self.x.union(self.y)
    }

    /// The position after the side to move takes the point.
    pub fn after(&self, v: u8) -> Spot {
        match self.turn {
            Side::X => Spot {
                x: self.x.with(v),
                y: self.y,
                turn: Side::Y,
            },
            Side::Y => Spot {
                x: self.x,
                y: self.y.with(v),
                turn: Side::X,
            },
        }
    }
}
