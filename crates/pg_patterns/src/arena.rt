//! A game as the search sees it.

use crate::maps::Maps;
use crate::small_set::SmallSet;
use crate::spot::Spot;
use pg_base::{Memory, PointSet, Side};
use pg_game::Game;
use std::alloc::Global;

/// A game on lines with its points and lines as sets of points below 256.
#[derive(Debug, Drop)]
pub struct Arena {
    /// The lines.
    pub lines: Vec<SmallSet>,
    /// All points.
    pub points: SmallSet,
    /// How many points the longest line has.
    pub longest: u32,
    /// The maps of the board that fit the game.
    pub maps: Maps,
    /// The position at which the game begins.
    pub start: Spot,
}

/// Returns the lines of the game.
fn lines_of(alloc: Global, g: &Game) -> Result<Vec<SmallSet>, Memory> {
    let mut lines = Vec::new(alloc);
    for line in g.lines() {
        let points = PointSet::from_points(line.as_slice());
        lines.push(SmallSet::from_points(&points))?;
    }
    Ok(lines)
}

/// Returns the number of points of the longest line.
fn longest_of(lines: &[SmallSet]) -> u32 {
    let mut longest = 0;
    for line in lines {
        longest = line.len().max(longest);
    }
    longest
}

impl Arena {
    /// Returns the game as the search sees it.
    ///
    /// # Errors
    ///
    /// `Memory` if an allocation fails.
    pub fn of_game(alloc: Global, g: &Game) -> Result<Arena, Memory> {
        let lines = lines_of(alloc, g)?;
        let longest = longest_of(lines.as_slice());
        let points = PointSet::all_below(g.points());
        Ok(Arena {
            lines,
            points: SmallSet::from_points(&points),
            longest,
            maps: Maps::of_game(alloc, g)?,
            start: Spot {
                x: SmallSet::from_points(&g.x),
                y: SmallSet::from_points(&g.y),
                turn: g.turn,
            },
        })
    }

    /// Returns the points that neither side has.
    pub fn free(&self, spot: &Spot) -> SmallSet {
        self.points.without(spot.x).without(spot.y)
    }

    /// Returns the position in which the claimer has the held points and the other side every point
    /// outside the zone.
    pub fn conceded(&self, claimer: Side, held: SmallSet, zone: SmallSet, turn: Side) -> Spot {
        let rest = self.points.without(zone);
        match claimer {
            Side::X => Spot {
                x: held,
                y: rest,
                turn,
            },
            Side::Y => Spot {
                x: rest,
                y: held,
                turn,
            },
        }
    }

    /// Returns the lines without a point of Y, less X's points.
    ///
    /// # Errors
    ///
    /// `Memory` if an allocation fails.
    pub fn live(&self, alloc: Global, spot: &Spot) -> Result<Vec<SmallSet>, Memory> {
        let mut live = Vec::new(alloc);
        for line in &self.lines {
            if line.shares_none(spot.y) {
                live.push(line.without(spot.x))?;
            }
        }
        Ok(live)
    }
}
