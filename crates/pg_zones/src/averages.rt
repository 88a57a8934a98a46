//! Average numbers of moves that must be searched.

use pg_base::{Memory, Side};
use pg_patterns::Spot;
use std::alloc::Global;

/// The greatest number of moves.
const MOST: u32 = 256;

/// The number of parts of one in which averages are counted.
const PARTS: u32 = 256;

/// For each number of taken points and side to move, the average number of moves that had to be
/// searched at the positions that were expanded.
#[derive(Debug, Drop)]
pub(crate) struct Averages {
    averages: Vec<Option<u32>>,
}

/// Returns the place of the average for the position.
fn place_of(spot: &Spot) -> usize {
    let taken = spot.taken().len() as usize;
    match spot.turn {
        Side::X => 2 * taken,
        Side::Y => 2 * taken + 1,
    }
}

impl Averages {
    /// Nothing known.
    pub(crate) fn new(alloc: Global) -> Result<Averages, Memory> {
        let mut averages = Vec::new(alloc);
        for _place in 0..=2 * MOST {
            averages.push(None)?;
        }
        Ok(Averages { averages })
    }

    /// Counts a position with its number of moves, which makes up a twentieth of the average.
    pub(crate) fn count(&mut self, spot: &Spot, moves: u32) {
        let now = moves.min(MOST) * PARTS;
        if let Some(average) = self.averages.get_mut(place_of(spot)) {
            *average = match *average {
                Some(old) => Some(old.saturating_mul(19).saturating_add(now) / 20),
                None => Some(now),
            };
        }
    }

    /// Returns how many moves the position seems to have; `free` if none was counted.
    pub(crate) fn of(&self, spot: &Spot, free: u32) -> u32 {
        match self.averages.get(place_of(spot)) {
            Some(Some(average)) => *average / PARTS,
            _ => free,
        }
    }
}
