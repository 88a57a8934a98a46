//! Surveys the moves of a position.

use crate::expanding::learn_all;
use crate::finder::Finder;
use crate::numbers::{INFINITE, first_numbers, quarters, sixths};
use pg_base::{Memory, Side};
use pg_patterns::{Glimpse, Numbers, Spot, Undecided, Weighed};
use std::alloc::Global;

/// A position on the way down, and what the positions below are to reach before the search goes up
/// again.
#[derive(Debug, Drop)]
pub(crate) struct Frame {
    pub(crate) spot: Spot,
    pub(crate) going: Undecided,
    /// The moves that had to be searched when the frame was made, the heaviest first.
    pub(crate) order: Vec<Weighed>,
    /// What the lines weigh.
    pub(crate) total: u128,
    /// The mover's and the waiter's numbers that end the search.
    pub(crate) limits: Numbers,
}

/// The move that seems best for the mover.
#[derive(Clone, Copy, Debug)]
pub(crate) struct Best {
    pub(crate) point: u8,
    /// The mover's number after it.
    pub(crate) own: u32,
    /// The waiter's.
    pub(crate) other: u32,
}

/// A summary of the moves of a position.
#[derive(Clone, Copy, Debug)]
pub(crate) struct Survey {
    pub(crate) best: Option<Best>,
    /// The mover's least number after any other move.
    pub(crate) second: u32,
    /// The greatest of the waiter's numbers.
    greatest: u32,
    /// How many moves aren't decided.
    pub(crate) going: u32,
    /// A move that wins, and the pattern after it.
    pub(crate) won: Option<(u8, u32)>,
}

impl Survey {
    /// Returns the survey of no move.
    fn new() -> Survey {
        Survey {
            best: None,
            second: INFINITE,
            greatest: 0,
            going: 0,
            won: None,
        }
    }

    /// Adds a move with the numbers after it, where the mover waits.
    fn put(&mut self, point: u8, numbers: Numbers) {
        let (own, other) = (numbers.waiter, numbers.mover);
        self.going = self.going.saturating_add(1);
        self.greatest = self.greatest.max(other);
        match self.best {
            Some(best) if own >= best.own => {
                self.second = self.second.min(own);
                return;
            }
            Some(best) => self.second = self.second.min(best.own),
            None => {}
        }
        self.best = Some(Best { point, own, other });
    }

    /// Returns the numbers of the position.
    pub(crate) fn numbers(&self) -> Numbers {
        let mover = match self.best {
            Some(best) => best.own,
            None => INFINITE,
        };
        Numbers {
            mover,
            waiter: self.greatest.saturating_add(quarters(self.going)),
        }
    }

    /// Returns the numbers that end the search below the best move: the mover's is the second one
    /// and a quarter of it, and the waiter's what the limits leave.
    pub(crate) fn below(&self, best: &Best, limits: Numbers) -> Numbers {
        let beyond = self
            .second
            .saturating_add(self.second / 4)
            .saturating_add(1);
        let own = limits.mover.min(beyond).min(INFINITE);
        let other = limits.waiter.saturating_sub(quarters(self.going));
        Numbers {
            mover: other.min(INFINITE).max(best.other.saturating_add(1)),
            waiter: own.max(best.own.saturating_add(1)),
        }
    }
}

impl Frame {
    /// Tests whether the numbers end the search.
    pub(crate) fn is_reached(&self, numbers: Numbers) -> bool {
        numbers.mover >= self.limits.mover || numbers.waiter >= self.limits.waiter
    }
}

/// Returns the weight of the lines after a move to a point of the given weight.
fn total_after(turn: Side, total: u128, weight: u128) -> u128 {
    match turn {
        Side::X => total.saturating_add(weight),
        Side::Y => total.saturating_sub(weight),
    }
}

impl Finder {
    /// Returns the first numbers of the position after a move; `moves` is how many moves it seems
    /// to have, and `rank` how many undecided moves are heavier.
    fn guess(&self, frame: &Frame, weighed: &Weighed, moves: u32, rank: u32) -> Numbers {
        let total = total_after(frame.spot.turn, frame.total, weighed.weight);
        let more = quarters(moves.max(1)) + sixths(rank.saturating_add(1));
        first_numbers(total, self.total, frame.spot.turn.other(), more)
    }

    /// Returns how many moves the positions below seem to have.
    fn moves_below(&self, spot: &Spot) -> u32 {
        let free = self.arena.free(spot).len().saturating_sub(1);
        match self.arena.free(spot).first() {
            Some(v) => self.averages.of(&spot.after(v), free),
            None => free,
        }
    }

    /// Surveys the moves of the frame's position that must be searched, and learns from those that
    /// lose.
    pub(crate) fn survey(&self, alloc: Global, frame: &mut Frame) -> Result<Survey, Memory> {
        let mut survey = Survey::new();
        let spot = frame.spot;
        let moves = self.moves_below(&spot);
        for i in 0..frame.order.len() {
            let Some(weighed) = frame.order.get(i).copied() else {
                break;
            };
            if frame.going.must.has(weighed.point) {
                match self.known.glimpse(&spot.after(weighed.point)) {
                    Glimpse::Decided(number) => {
                        if self.known.claimer(number) == Some(spot.turn) {
                            survey.won = Some((weighed.point, number));
                            return Ok(survey);
                        }
                        learn_all(
                            alloc,
                            &self.arena,
                            &self.known,
                            &spot,
                            number,
                            &mut frame.going,
                        )?;
                    }
                    Glimpse::Undecided(numbers) => survey.put(weighed.point, numbers),
                    Glimpse::Unmet => {
                        let numbers = self.guess(frame, &weighed, moves, survey.going);
                        survey.put(weighed.point, numbers);
                    }
                }
            }
        }
        Ok(survey)
    }
}
