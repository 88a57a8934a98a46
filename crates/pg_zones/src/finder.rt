//! Decides positions without a search.
ghost use Rattle.std.specs.Prelude.{◌≡◌};
ghost use Rattle.pg_patterns.specs.Known.{limits_of};

use crate::averages::Averages;
use crate::trials::{Trials, kind_of};
use pg_base::{Memory, Side};
use pg_pattern_leaves::{
    least_lines, over_pattern, pairs_pattern, potential_pattern, shared_pairs, threat,
    threat_pattern,
};
use pg_patterns::{Arena, Known, Pattern, SmallSet, Spot, weigh};
use std::alloc::Global;

/// The most positions that a search for a threat line looks at.
pub(crate) const THREAT_STEPS: u32 = 300;

/// When the moves of a position are judged.
#[derive(Clone, Copy, Debug, PartialEq, Eq)]
pub(crate) enum Manner {
    /// Each once the search follows it.
    Late,
    /// The heaviest ones already when the position is expanded.
    Early,
}

/// A game, and what a search knows of it.
#[derive(Debug, Drop)]
pub(crate) struct Finder {
    pub(crate) arena: Arena,
    pub(crate) known: Known,
    pub(crate) trials: Trials,
    pub(crate) averages: Averages,
    /// What the lines weigh at the game's own position.
    pub(crate) total: u128,
    /// When moves are judged.
    pub(crate) manner: Manner,
    /// The number of expanded positions that ends the round.
    pub(crate) round_end: u32,
}

impl Manner {
    /// Returns the other manner.
    pub(crate) fn other(self) -> Manner {
        match self {
            Manner::Late => Manner::Early,
            Manner::Early => Manner::Late,
        }
    }
}

/// Tests whether no line is left for Maker, or one is filled.
fn is_over(live: &[SmallSet]) -> bool {
    for line in live {
        if line.is_empty() {
            return true;
        }
    }
    live.is_empty()
}

/// Tests whether each line has two points.
fn have_two(live: &[SmallSet]) -> bool {
    for line in live {
        if line.len() < 2 {
            return false;
        }
    }
    true
}

/// Returns the pattern of Breaker's shared pairs, if at most `steps` choices find some.
fn by_pairs(
    alloc: Global,
    arena: &Arena,
    spot: &Spot,
    live: &[SmallSet],
    steps: u32,
) -> Result<Option<Pattern>, Memory> {
    if !have_two(live) {
        return Ok(None);
    }
    let lines = least_lines(alloc, live, arena.longest)?;
    match shared_pairs(alloc, lines, steps)? {
        Some(pairs) => Ok(Some(pairs_pattern(alloc, arena, spot, pairs.as_slice())?)),
        None => Ok(None),
    }
}

/// Returns the pattern of Maker's threat line, if Maker is to move and one is found.
pub(crate) fn by_threat(
    alloc: Global,
    arena: &Arena,
    spot: &Spot,
    live: &[SmallSet],
    steps: u32,
) -> Result<Option<Pattern>, Memory> {
    if spot.turn == Side::Y {
        return Ok(None);
    }
    match threat(alloc, live, steps)? {
        Some(points) => Ok(Some(threat_pattern(arena, spot, points))),
        None => Ok(None),
    }
}

impl Finder {
    /// Returns the pattern of Breaker's shared pairs, if it seems worth while to look for some and
    /// at most `steps` choices find them.
    fn pairs_leaf(
        &mut self,
        alloc: Global,
        spot: &Spot,
        live: &[SmallSet],
        total: u128,
        steps: u32,
    ) -> Result<Option<Pattern>, Memory>
        ensures { self.new.known ≡ self.old.known }
    {
        if self.is_first(spot) {
            return by_pairs(alloc, &self.arena, spot, live, steps);
        }
        let Some(kind) = kind_of(total, self.arena.longest, spot.turn) else {
            return Ok(None);
        };
        if !self.trials.ask(kind) {
            return Ok(None);
        }
        let found = by_pairs(alloc, &self.arena, spot, live, steps)?;
        if found.is_some() {
            self.trials.tell(kind);
        }
        Ok(found)
    }

    /// Tests whether it is the game's own position.
    fn is_first(&self, spot: &Spot) -> bool {
        *spot == self.arena.start
    }

    /// Returns the pattern by the first criterion that decides the position.
    fn leaf(
        &mut self,
        alloc: Global,
        spot: &Spot,
        live: &[SmallSet],
        steps: u32,
    ) -> Result<Option<Pattern>, Memory>
        ensures { self.new.known ≡ self.old.known }
    {
        if is_over(live) {
            return Ok(Some(over_pattern(alloc, &self.arena, spot)?));
        }
        let attack = by_threat(alloc, &self.arena, spot, live, THREAT_STEPS)?;
        if attack.is_some() {
            return Ok(attack);
        }
        let weights = weigh(live, self.arena.longest);
        if weights.holds(self.arena.longest, spot.turn) {
            return Ok(Some(potential_pattern(alloc, &self.arena, spot, live)?));
        }
        self.pairs_leaf(alloc, spot, live, weights.total, steps)
    }

    /// Returns how many choices may be made for shared pairs at the position.
    fn steps_at(&self, spot: &Spot) -> u32 {
        let limits = self.known.limits();
        if self.is_first(spot) {
            limits.first_steps
        } else {
            limits.steps
        }
    }

    /// Returns the number of a known pattern of the claimer that fits the position, if any does.
    fn known_one(&self, alloc: Global, claimer: Side, spot: &Spot) -> Result<Option<u32>, Memory> {
        let moves = spot.turn == claimer;
        let found = self.known.find(alloc, claimer, moves, spot, 1)?;
        match found.first() {
            Some(number) => Ok(Some(*number)),
            None => Ok(None),
        }
    }

    /// Returns the number of a pattern that decides the position: one that is known, or one that a
    /// criterion shows.
    pub(crate) fn decide(&mut self, alloc: Global, spot: &Spot) -> Result<Option<u32>, Memory>
        ensures { limits_of self.new.known ≡ limits_of self.old.known }
    {
        let known = self.known_one(alloc, Side::X, spot)?;
        if known.is_some() {
            return Ok(known);
        }
        let known = self.known_one(alloc, Side::Y, spot)?;
        if known.is_some() {
            return Ok(known);
        }
        let live = self.arena.live(alloc, spot)?;
        let steps = self.steps_at(spot);
        match self.leaf(alloc, spot, live.as_slice(), steps)? {
            Some(pattern) => self.known.add(alloc, pattern),
            None => Ok(None),
        }
    }
}
