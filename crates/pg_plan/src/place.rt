//! The positions of a plan, and the moves between them.
ghost use Rattle.std.specs.Prelude.{◌≡◌};

use std::marker::Model;

/// The most positions of a plan.
pub const MAX_PLACES: u32 = 100_000;

/// One more than the greatest number of a game file.
pub const MAX_GAME_FILES: u32 = 100_000;

/// The number of maps of a board, its symmetries: four of a rectangle, and four more of a square.
pub const MAX_MAPS: u32 = 8;

/// A move, and the position after it.
#[derive(Clone, Copy, Debug, PartialEq, Eq)]
pub struct Step {
    /// The point that the side to move takes: 0 to 1,023.
    pub point: u16,
    /// The number of the position after the move: 0 to 99,999.
    pub place: u32,
}

/// The moves of a position, the most promising first.
#[derive(Debug, Drop)]
pub struct Steps {
    members: Vec<Step>,
}

/// The moves in order.
impl Model for Steps {
    ghost use Rattle.std.specs.Prelude.{List};
    ghost use Rattle.pg_plan.specs.declared.place.Step.{Step};

    ghost Value = { List Step };

    ghost view = { λ a. a.members.items };
}

impl Steps {
    /// Makes the list of these moves. Their numbers aren't checked.
    pub fn from_vec(members: Vec<Step>) -> Steps
        ensures { result ≡ members.items }
    {
        Steps { members }
    }

    /// Returns the moves in order.
    pub fn as_slice(&self) -> &[Step]
        ensures { result.now ≡ self.now }
    {
        self.members.as_slice()
    }
}

/// A position of a plan, by how its value is to be found.
#[derive(Debug, Drop)]
pub enum Place {
    /// It is decided at once, without a search.
    Decided,
    /// It is the image of another position under a map of the board.
    Image {
        /// The number of the map: 0 to 7.
        map: u8,
        /// The number of the other position: 0 to 99,999.
        place: u32,
    },
    /// A game file contains it, to be settled by a run of its own.
    Game {
        /// The number of the file: 1 to 99,999.
        file: u32,
        /// Its moves, if it was split further as well; else none.
        steps: Steps,
    },
    /// It is split by its moves, and no game file contains it.
    Moves(Steps),
}

/// The positions of a plan, numbered from 0. Those that are read from a file stand after all
/// positions that they name (law `what_is_read_is_a_plan`); the last is that of the whole game.
#[derive(Debug, Drop)]
pub struct Plan {
    places: Vec<Place>,
}

/// The positions in order.
impl Model for Plan {
    ghost use Rattle.std.specs.Prelude.{List};
    ghost use Rattle.std.specs.Coded.{coded_list};
    ghost use Rattle.pg_plan.specs.declared.place.Place.{Place};
    ghost use Rattle.pg_plan.specs.contracts.place.Place.{the_row};

    ghost Value = { List Place };

    ghost coded = { coded_list the_row.coded };

    ghost view = { λ a. a.places.items };
}

impl Plan {
    /// Makes the plan of these positions. Whether they name earlier ones isn't checked.
    pub fn from_vec(places: Vec<Place>) -> Plan
        ensures { result ≡ places.items }
    {
        Plan { places }
    }

    /// Returns the positions in order.
    pub fn as_slice(&self) -> &[Place]
        ensures { result.now ≡ self.now }
    {
        self.places.as_slice()
    }
}
