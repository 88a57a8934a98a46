//! Patterns: what a side needs to win.

use crate::small_pair::SmallPair;
use crate::small_set::SmallSet;
use pg_base::Side;

/// A pattern as a map of the board takes it.
#[derive(Clone, Copy, Debug, PartialEq, Eq, Hash)]
pub struct Image {
    /// The number of the pattern.
    pub pattern: u32,
    /// The place of the map.
    pub map: u8,
}

/// Why the claimer of a pattern wins.
#[derive(Debug, Drop)]
pub enum Reason {
    /// The game is over.
    Over,
    /// Breaker answers each point of a pair with the other.
    Pairs(Vec<SmallPair>),
    /// The sum of weights is small enough (Erdős and Selfridge, 1973).
    Potential,
    /// Maker's line of threats.
    Threat(Vec<u8>),
    /// The claimer takes a point, and has the other pattern then.
    Move {
        /// The point.
        point: u8,
        /// The pattern that the claimer has then.
        next: Image,
    },
    /// Whichever point the other side takes, the claimer has one of these patterns.
    All(Vec<Image>),
}

/// What a side needs to win: it wins from each position with the turn in which it has the points
/// that it holds and the other side has none of the zone.
#[derive(Debug, Drop)]
pub struct Pattern {
    /// The points that the claimer holds. They are in the zone.
    pub held: SmallSet,
    /// The points of which the other side has none.
    pub zone: SmallSet,
    /// The side that wins.
    pub claimer: Side,
    /// Whether the claimer is to move.
    pub moves: bool,
    /// Why it wins.
    pub reason: Reason,
}

impl Pattern {
    /// The side to move.
    pub fn turn(&self) -> Side {
        if self.moves {
            self.claimer
        } else {
            self.claimer.other()
        }
    }
}
