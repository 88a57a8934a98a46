//! What the moves of a position tell.
ghost use Rattle.std.specs.Prelude.{◌≡◌};

use crate::moves::Move;
use crate::numbers::{INFINITE, Numbers, State, quarters};
use pg_base::Side;

/// What the positions below must reach before the search goes up again: the number for yes, or that
/// for no.
#[derive(Clone, Copy, Debug)]
pub struct Frame {
    /// For yes.
    pub proof: u32,
    /// For no.
    pub disproof: u32,
}

/// The move that seems best for the mover.
#[derive(Clone, Copy, Debug)]
struct Best {
    to: Move,
    /// The mover's number after it.
    own: u32,
    /// The other side's.
    other: u32,
    size: u32,
}

/// What the moves of a position tell that were looked at so far.
#[derive(Clone, Copy, Debug)]
pub struct Survey {
    turn: Side,
    best: Option<Best>,
    /// The mover's least number after any other move.
    second: u32,
    /// The greatest of the other side's numbers.
    greatest: u32,
    /// How many moves don't lose.
    going: u32,
    /// How many nodes the moves that lose take together.
    lost: u32,
}

impl Survey {
    /// Returns what no moves tell.
    pub fn new(turn: Side) -> Survey {
        Survey {
            turn,
            best: None,
            second: INFINITE,
            greatest: 0,
            going: 0,
            lost: 0,
        }
    }

    /// Whether the move is better than the best so far: the mover's number is less, or it wins in
    /// fewer nodes.
    fn is_better(&self, own: u32, size: u32) -> bool {
        match self.best {
            Some(best) => own < best.own || (own == 0 && best.own == 0 && size < best.size),
            None => true,
        }
    }

    /// Adds a move, with the numbers after it.
    pub fn put(&mut self, to: &Move, numbers: &Numbers) {
        let (own, other) = (numbers.of(self.turn), numbers.of(self.turn.other()));
        if other == 0 {
            self.lost = self.lost.saturating_add(numbers.size);
            return;
        }
        self.going = self.going.saturating_add(1);
        self.greatest = self.greatest.max(other);
        if !self.is_better(own, numbers.size) {
            self.second = self.second.min(own);
            return;
        }
        if let Some(best) = self.best {
            self.second = self.second.min(best.own);
        }
        self.best = Some(Best {
            to: *to,
            own,
            other,
            size: numbers.size,
        });
    }

    /// Returns the best move, or None if each move loses.
    pub fn best(&self) -> Option<Move> {
        match self.best {
            Some(best) => Some(best.to),
            None => None,
        }
    }

    /// Returns the best move if it wins.
    pub fn winning(&self) -> Option<Move> {
        match self.best {
            Some(best) => if best.own == 0 { Some(best.to) } else { None },
            None => None,
        }
    }

    /// The mover's number, the other side's, and how many nodes show the answer, where it is known.
    fn parts(&self) -> (u32, u32, u32) {
        let Some(best) = self.best else {
            return (INFINITE, 0, self.lost.saturating_add(1));
        };
        if best.own == 0 {
            return (0, INFINITE, best.size.saturating_add(1));
        }
        let other = self.greatest.saturating_add(quarters(self.going));
        (best.own, other.min(INFINITE - 1), 0)
    }

    /// Returns the numbers of the position.
    pub fn numbers(&self) -> Numbers
        ensures { result.state ≡ State.Expanded }
    {
        let (own, other, size) = self.parts();
        let (proof, disproof) = match self.turn {
            Side::X => (own, other),
            Side::Y => (other, own),
        };
        Numbers {
            proof,
            disproof,
            size,
            state: State::Expanded,
        }
    }

    /// Returns what the best move must reach: its own number up to a quarter more than the second
    /// one, and the other side's as far as the move makes the greatest.
    pub fn below(&self, frame: &Frame) -> Frame {
        let (own, other) = match self.turn {
            Side::X => (frame.proof, frame.disproof),
            Side::Y => (frame.disproof, frame.proof),
        };
        let (least, besides) = match self.best {
            Some(best) => (best.own, best.other),
            None => (0, 0),
        };
        let limit = self
            .second
            .saturating_add(self.second / 4)
            .saturating_add(1);
        let own = own.min(limit).max(least.saturating_add(1));
        let left = other.saturating_sub(quarters(self.going));
        let other = left.max(besides.saturating_add(1)).min(INFINITE);
        match self.turn {
            Side::X => Frame {
                proof: own,
                disproof: other,
            },
            Side::Y => Frame {
                proof: other,
                disproof: own,
            },
        }
    }
}

impl Frame {
    /// Returns the frame that only a known answer reaches.
    pub fn whole() -> Frame {
        Frame {
            proof: INFINITE,
            disproof: INFINITE,
        }
    }

    /// Tests whether the numbers reach it.
    pub fn is_reached(&self, numbers: &Numbers) -> bool {
        numbers.answer().is_some()
            || numbers.proof >= self.proof
            || numbers.disproof >= self.disproof
    }
}
