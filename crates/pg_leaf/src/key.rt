//! Positions of games on lines in few words.
ghost use Rattle.std.specs.Prelude.{◌≡◌};
ghost use Rattle.pg_base.specs.Points.{AreBelow};
ghost use Rattle.pg_leaf.specs.Prelude.{MAX_POINTS};

use crate::small_set::SmallSet;
use pg_base::Side;
use pg_game::Position;
use std::hash::{Hash, Hasher};
use std::marker::Model;

/// A position of a game on lines, whose points are below `MAX_POINTS`, in few words.
#[derive(Clone, Copy, Debug)]
pub struct Key {
    x: SmallSet,
    y: SmallSet,
    turn: Side,
    left: u8,
}

/// The position.
impl Model for Key {
    ghost use Rattle.pg_game.specs.declared.position.Position.{Position};
    ghost use Rattle.pg_game.specs.contracts.position.Position as position;

    ghost Value = { Position };

    ghost coded = { position.the_row.coded };

    ghost view = { λ a. record { x = a.x; y = a.y; turn = a.turn; left = a.left } };

    ghost inverse = { λ p. record { x = p.x; y = p.y; turn = p.turn; left = p.left } };
}

impl PartialEq for Key {
    ghost use Rattle.pg_game.specs.PositionLemmas.{equal_positions};
    ghost use Rattle.pg_leaf.specs.Keys.{equal_positions-partial};

    ghost eq = { equal_positions };

    ghost laws = { equal_positions-partial };

    fn eq(&self, other: &Key) -> bool {
        self.x == other.x && self.y == other.y && self.turn == other.turn && self.left == other.left
    }
}

impl Eq for Key {
    ghost use Rattle.pg_leaf.specs.Keys.{equal_positions-equivalence};

    ghost laws = { equal_positions-equivalence };
}

/// The points of both sides are hashed: in one game, they tell who is to move.
impl Hash for Key {
    ghost use Rattle.pg_leaf.specs.Keys.{hash_input, hash_input-respects};

    ghost hash_input = { hash_input };

    ghost respects_eq = { hash_input-respects };

    fn hash<H: Hasher>(&self, state: &mut H) {
        self.x.hash(state);
        self.y.hash(state);
    }
}

impl Key {
    /// The position as a key, where its points are below `MAX_POINTS`.
    pub fn of(p: &Position) -> Key
        ensures { AreBelow p.now.x MAX_POINTS → AreBelow p.now.y MAX_POINTS → result ≡ p.now }
    {
        Key {
            x: SmallSet::of(&p.x),
            y: SmallSet::of(&p.y),
            turn: p.turn,
            left: p.left,
        }
    }

    /// The position.
    pub fn position(&self) -> Position
        ensures { result ≡ self.now }
    {
        Position {
            x: self.x.widened(),
            y: self.y.widened(),
            turn: self.turn,
            left: self.left,
        }
    }

    /// The side to move.
    pub fn turn(&self) -> Side
        ensures { result ≡ self.now.turn }
    {
        self.turn
    }
}
