//! Positions in the making of a plan.

use pg_game::{Game, Position};
use pg_plan::Step;

/// What is made of a position.
#[derive(Debug, Drop)]
pub(crate) enum State {
    /// A game file says it: of this number, if it has one.
    Open(Option<u32>),
    /// It is decided at once.
    Decided,
    /// It is the image of another spot under the map of this number.
    Image(u8, u32),
    /// It is split by these moves, each to a spot; its file has this number, if it has one.
    Split(Option<u32>, Vec<Step>),
}

impl State {
    /// Returns whether a game file is to say it that isn't there yet.
    pub(crate) fn is_new(&self) -> bool {
        matches!(self, State::Open(None))
    }
}

/// A position in the making of a plan. Spots have numbers in the order in which they are made.
#[derive(Debug, Drop)]
pub(crate) struct Spot {
    pub(crate) position: Position,
    pub(crate) state: State,
}

impl Spot {
    /// Returns whether a game file is to say it.
    pub(crate) fn is_open(&self) -> bool {
        matches!(self.state, State::Open(_))
    }

    /// Returns whether the side to move has claimed a part of its turn, so that no game file can
    /// say it.
    pub(crate) fn is_within_turn(&self, game: &Game) -> bool {
        self.position.left != game.bias_of(self.position.turn)
    }

    /// Returns the number of its file, if it has one.
    pub(crate) fn file(&self) -> Option<u32> {
        match &self.state {
            State::Open(file) => *file,
            State::Split(file, _) => *file,
            State::Decided | State::Image(..) => None,
        }
    }

    /// Returns how many points are taken.
    pub(crate) fn taken(&self) -> u32 {
        self.position.x.len() + self.position.y.len()
    }
}
