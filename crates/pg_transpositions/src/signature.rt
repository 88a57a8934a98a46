//! What positions of one game are known by.

use crate::outlook::Outlook;
use pg_base::{Kind, Memory, Side};
use pg_game::{Game, Position};
use pg_maps::fitting_maps;
use pg_patterns::{Arena, SmallSet};
use std::alloc::Global;

/// What a position of one game on lines is known by: positions with the same signature have the
/// same value.
///
/// A line is *dead* for a side if the other side has a point of it. A point is dead if each line
/// through it is dead for X, in Maker-Maker for both sides. Whose a dead point is doesn't matter.
/// The number of free points does: it tells whose turn it is, and who moves last. Of the positions
/// that the maps of the board make of one another, one stands for all.
#[derive(Clone, Copy, Debug, PartialEq, Eq, Hash)]
pub struct Signature {
    /// X's points and the dead ones.
    pub(crate) x: SmallSet,
    /// Y's points and the dead ones.
    pub(crate) y: SmallSet,
    /// How many points are free.
    pub(crate) free: u32,
}

/// A game, as far as the signatures of its positions depend on it.
#[derive(Debug, Drop)]
pub struct Signatures {
    pub(crate) arena: Arena,
    kind: Kind,
    /// How many maps of the board fit the game.
    maps: u8,
}

/// Tests whether the first set has the least point that is in one of the sets alone.
fn comes_first(one: SmallSet, other: SmallSet) -> bool {
    match (one.without(other).first(), other.without(one).first()) {
        (Some(v), Some(w)) => v < w,
        (Some(_), None) => true,
        (None, _) => false,
    }
}

impl Signature {
    /// Tests whether it comes before the other one.
    pub(crate) fn is_before(&self, other: &Signature) -> bool {
        if self.x == other.x {
            comes_first(self.y, other.y)
        } else {
            comes_first(self.x, other.x)
        }
    }
}

impl Signatures {
    /// Returns the signatures of a game on lines.
    ///
    /// # Errors
    ///
    /// `Memory` if an allocation fails.
    pub fn of_game(alloc: Global, g: &Game) -> Result<Signatures, Memory> {
        let arena = Arena::of_game(alloc, g)?;
        let maps = fitting_maps(alloc, g)?;
        Ok(Signatures {
            arena,
            kind: g.kind,
            maps: maps.len().min(8) as u8,
        })
    }

    /// Returns signatures by which positions that a map of the board makes of one another are told
    /// apart, so that a tree of positions is a tree of signatures.
    ///
    /// # Errors
    ///
    /// `Memory` if an allocation fails.
    pub fn without_maps(alloc: Global, g: &Game) -> Result<Signatures, Memory> {
        let arena = Arena::of_game(alloc, g)?;
        Ok(Signatures {
            arena,
            kind: g.kind,
            maps: 1,
        })
    }

    /// The dead points if the sides have these points.
    pub(crate) fn dead(&self, x: SmallSet, y: SmallSet) -> SmallSet {
        let mut dead = self.arena.points;
        for line in &self.arena.lines {
            if line.shares_none(y) || self.kind == Kind::MakerMaker && line.shares_none(x) {
                dead = dead.without(*line);
            }
        }
        dead
    }

    /// Tests whether the map is one of those that fit the game.
    pub(crate) fn has_map(&self, map: u8) -> bool {
        map < self.maps
    }

    /// Tests whether no point dies by a move of the side.
    pub(crate) fn is_harmless(&self, side: Side) -> bool {
        side == Side::X && self.kind != Kind::MakerMaker
    }

    /// Returns the signature of a position.
    pub fn at(&self, p: &Position) -> Signature {
        Outlook::new(self, p).signature()
    }
}
