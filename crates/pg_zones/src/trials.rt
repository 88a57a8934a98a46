//! Counts how often shared pairs were looked for and found.

use crate::numbers::sixths;
use pg_base::{Memory, Side};
use std::alloc::Global;

/// The number of kinds of positions.
const KINDS: usize = 64;

/// The number of positions of each kind at which pairs are looked for at first.
const FIRST: u32 = 100;

/// Pairs are always looked for if more than one search in this number finds some.
const FEW: u32 = 50;

/// Otherwise pairs are looked for at one position in this number.
const SELDOM: u32 = 16;

/// The searches at one kind of position.
#[derive(Clone, Copy, Debug)]
struct Trial {
    asked: u32,
    found: u32,
}

/// The searches for shared pairs by kind of position: how much the lines weigh, and which side is
/// to move.
#[derive(Debug, Drop)]
pub(crate) struct Trials {
    trials: Vec<Trial>,
}

/// Returns the kind of a position whose lines weigh `total`, by its ratio to the weight of a line
/// without free points; None if they weigh too much for pairs.
pub(crate) fn kind_of(total: u128, longest: u32, turn: Side) -> Option<usize> {
    let sixteenfold = total.saturating_mul(16) >> longest.min(120);
    if sixteenfold >= 640 {
        return None;
    }
    let kind = sixths(sixteenfold as u32).saturating_sub(24).min(31) as usize;
    match turn {
        Side::X => Some(2 * kind),
        Side::Y => Some(2 * kind + 1),
    }
}

impl Trials {
    /// Returns the trials without searches.
    pub(crate) fn new(alloc: Global) -> Result<Trials, Memory> {
        let mut trials = Vec::new(alloc);
        for _kind in 0..KINDS {
            trials.push(Trial { asked: 0, found: 0 })?;
        }
        Ok(Trials { trials })
    }

    /// Counts a position of the kind. Returns whether pairs are to be looked for.
    pub(crate) fn ask(&mut self, kind: usize) -> bool {
        let Some(trial) = self.trials.get_mut(kind) else {
            return false;
        };
        trial.asked = trial.asked.saturating_add(1);
        trial.asked < FIRST
            || trial.found.saturating_mul(FEW) > trial.asked
            || trial.asked % SELDOM == 0
    }

    /// Counts that pairs were found at a position of the kind.
    pub(crate) fn tell(&mut self, kind: usize) {
        if let Some(trial) = self.trials.get_mut(kind) {
            trial.found = trial.found.saturating_add(1);
        }
    }
}
