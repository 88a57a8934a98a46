//! Positions, and why a move is refused.
ghost use Rattle.std.specs.Prelude.{◌≡◌, ◌<◌, ◌≤◌, ◌↔◌, IsTrue};
ghost use Rattle.std.specs.List.{find, range_with_len};
ghost use Rattle.pg_game.specs.Position.{is_free, points_of, claims_in_turn, after_with};

use pg_base::{MAX_MEMBERS, PointSet, Side};

/// The points of each side, the side to move, and how many points it still claims in its turn.
#[derive(Clone, Copy, Debug, PartialEq, Eq, Hash)]
pub struct Position {
    /// X's points.
    pub x: PointSet,
    /// Y's points.
    pub y: PointSet,
    /// The side to move.
    pub turn: Side,
    /// How many points the side to move still claims in this turn: 1 to 7.
    pub left: u8,
}

/// Why a move is refused.
#[derive(Clone, Copy, Debug, PartialEq, Eq)]
pub enum Illegal {
    /// There is no such point.
    Range,
    /// The point isn't free.
    Taken,
    /// The game is over.
    Over,
}

impl Position {
    /// Whether neither side has the point.
    pub fn is_free(&self, v: u16) -> bool
        requires { v < MAX_MEMBERS }
        ensures { result ≡ is_free self.now v }
    {
        !self.x.has(v) && !self.y.has(v)
    }

    /// The lowest point below `n` that neither side has, and None exactly where each of them is
    /// taken.
    pub fn lowest_free_below(&self, n: u16) -> Option<u16>
        requires { n ≤ MAX_MEMBERS }
        ensures { result ≡ find (is_free self.now) (range_with_len 0 n) }
    {
        for v in 0..n {
            if self.is_free(v) {
                return Some(v);
            }
        }
        None
    }

    /// The points that a side has.
    pub fn points_of(&self, side: Side) -> &PointSet
        ensures { result.now ≡ points_of self.now side }
    {
        match side {
            Side::X => &self.x,
            Side::Y => &self.y,
        }
    }

    /// Whether the positions are the same, as `==` says.
    pub fn is_same(&self, other: &Position) -> bool
        ensures { IsTrue result ↔ (self.now ≡ other.now) }
    {
        *self == *other
    }

    /// The position after the side to move takes the point, in a game in which Y claims `bias`
    /// points a turn.
    pub fn after(&self, bias: u8, v: u16) -> Position
        requires { v < MAX_MEMBERS }
        ensures { result ≡ after_with bias self.now v }
    {
        let mut next = *self;
        match self.turn {
            Side::X => next.x.put(v),
            Side::Y => next.y.put(v),
        }
        if self.left > 1 {
            next.left = self.left - 1;
        } else {
            next.turn = self.turn.other();
            next.left = claims_in_turn(bias, next.turn);
        }
        next
    }
}

/// How many points a side claims in a turn.
pub(crate) fn claims_in_turn(bias: u8, side: Side) -> u8
    ensures { result ≡ claims_in_turn bias side }
{
    match side {
        Side::X => 1,
        Side::Y => bias,
    }
}
