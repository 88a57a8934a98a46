//! What is to be seen on a board.
ghost use Rattle.std.specs.Prelude.{◌≡◌};

use pg_base::{Points, Side};
use pg_captions::Text;
use std::marker::Model;

/// One of two sets of edges or of vectors.
#[derive(Clone, Copy, Debug, PartialEq, Eq)]
pub enum Set {
    /// The first set.
    First,
    /// The second set.
    Second,
}

/// Something that is to be seen on a board.
#[derive(Debug, Drop)]
pub enum Item {
    /// A point of the game: a cell, a place on the ring, an edge, or a row of the table.
    Point {
        /// The point.
        point: u16,
        /// The side that has it.
        mark: Option<Side>,
    },
    /// A line of the game.
    Line {
        /// Its points in ascending order.
        points: Points,
        /// Its lane: lines that may lie over one another are drawn in different lanes.
        lane: usize,
    },
    /// Two points, of which a side answers one with the other.
    Pair {
        /// One point.
        first: u16,
        /// The other point.
        second: u16,
        /// The number of the pair in its list, from 0.
        number: usize,
    },
    /// The weight of a free point.
    Weight {
        /// The point.
        point: u16,
        /// How many units it weighs, in decimal digits.
        weight: Text,
    },
    /// An edge or a vector of a set.
    Member {
        /// The edge or the vector.
        point: u16,
        /// The set.
        set: Set,
    },
    /// The further edge between the terminals, or the target of a game on vectors, in a set.
    Extra {
        /// The set.
        set: Set,
    },
    /// A point that is taken as one of several in a row.
    Step {
        /// The point.
        point: u16,
        /// Its number in the row, from 1.
        number: usize,
    },
    /// The claimer's move, and the node that follows.
    Move {
        /// The point.
        point: u16,
        /// The number of the node.
        child: u32,
    },
    /// A move of the other side, and the node that follows.
    Reply {
        /// The point.
        point: u16,
        /// The number of the node.
        child: u32,
    },
    /// A vertex with the number of its part.
    Part {
        /// The vertex.
        vertex: u16,
        /// The number of the part.
        part: u16,
    },
    /// The node that is drawn is faulty.
    Fault,
}

/// A list of items.
#[derive(Debug, Drop)]
pub struct Items {
    members: Vec<Item>,
}

/// The items in order.
impl Model for Items {
    ghost use Rattle.std.specs.Prelude.{List};
    ghost use Rattle.std.specs.Coded.{coded_list};
    ghost use Rattle.pg_scene.specs.declared.item.Item.{Item};
    ghost use Rattle.pg_scene.specs.contracts.item.Item.{the_row};

    ghost Value = { List Item };

    ghost coded = { coded_list the_row.coded };

    ghost view = { λ a. a.members.items };
}

impl Items {
    /// The list of these items.
    pub fn from_vec(members: Vec<Item>) -> Items
        ensures { result ≡ members.items }
    {
        Items { members }
    }

    /// The items in order.
    pub fn as_slice(&self) -> &[Item]
        ensures { result.now ≡ self.now }
    {
        self.members.as_slice()
    }
}
