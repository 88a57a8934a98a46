//! Games.
ghost use Rattle.std.specs.Prelude.{◌≡◌, ℕ, ◌<◌, ◌≤◌, ◌↔◌, ◌&&◌, nat_lt, length, IsOk, IfOk};
ghost use Rattle.pg_game.specs.Prelude.{All, contains, len};
ghost use Rattle.pg_game.specs.Fit.{IsFit, IsLineOf};
ghost use Rattle.pg_game.specs.Position.{is_free};

use crate::bounds::{MAX_LINES, MAX_POINTS};
use crate::field::Field;
use crate::fit::is_fit;
use crate::position::{Position, claims_in_turn};
use pg_base::{Kind, Line, MAX_EDGES, MAX_MEMBERS, PointSet, Side};

/// A game with its marks and the side to move. Its type keeps that it is within the limits, that
/// what it is played on fits its kind, that all points are in range, and that the marks of the two
/// sides are disjoint.
#[derive(Debug, Drop)]
pub struct Game {
    /// The kind.
    pub kind: Kind,
    /// What it is played on.
    pub field: Field,
    /// X's marks.
    pub x: PointSet,
    /// Y's marks.
    pub y: PointSet,
    /// The side to move.
    pub turn: Side,
    /// How many points Y claims in a turn, where X claims one: 1 to 7, and 1 in Maker-Maker and
    /// switching.
    pub bias: u8,
    pub ghost fits: { IsFit kind field x y bias },
}

/// Why a game can't be made: one of the facts that every game keeps fails.
#[derive(Clone, Copy, Debug, PartialEq, Eq)]
pub struct Misfit;

impl Game {
    ghost use Rattle.pg_game.specs.Game.{point_count, lines_of, bias_of, start, with_turn, after};
    ghost use Rattle.pg_game.specs.Game.{free_points, lowest_free, is_full, IsGameOf};

    /// The game of these parts, where `bias` is how many points Y claims in a turn.
    ///
    /// # Errors
    ///
    /// `Misfit` exactly where the parts don't fit together or are beyond the limits (`MAX_POINTS`
    /// and its siblings): a field of lines has 1 to 256 points, and cells as many as its grid, at
    /// most 20,000 lines of at least one point each, none longer than 100 points, or 33 where the
    /// bias is above 1, and at most 400,000 points in all lines; a graph has 2 to 500 vertices, at
    /// most 1,000 edges, and two different terminals; marks are points of the game and no mark is
    /// both sides'; the bias is 1 to 7, and 1 in Maker-Maker and switching. The field is then
    /// dropped.
    pub fn new(
        kind: Kind,
        field: Field,
        x: PointSet,
        y: PointSet,
        turn: Side,
        bias: u8,
    ) -> Result<Game, Misfit>
        ensures fits { IsOk result ↔ IsFit kind field x y bias }
        ensures parts { IfOk result (λ g. IsGameOf g kind field x y turn bias) }
    {
        if is_fit(kind, &field, &x, &y, bias) {
            Ok(Game {
                kind,
                field,
                x,
                y,
                turn,
                bias,
            })
        } else {
            Err(Misfit)
        }
    }

    /// The number of points or edges.
    pub fn points(&self) -> u16
        ensures count { result ≡ point_count self.now }
        ensures few { result ≤ MAX_EDGES }
    {
        match &self.field {
            Field::Lines(field) => field.points,
            Field::Graph(graph) => graph.ends.as_slice().len() as u16,
        }
    }

    /// The lines, none on a graph.
    pub fn lines(&self) -> &[Line]
        ensures lines { result.now ≡ lines_of self.now }
        ensures fit { All (IsLineOf (point_count self.now) self.now.bias) result.now }
        ensures few { length result.now ≤ MAX_LINES }
        ensures range { All (All (λ v. v < MAX_POINTS)) result.now }
        ensures small { All (All (λ v. v < MAX_MEMBERS)) result.now }
    {
        match &self.field {
            Field::Lines(field) => field.lines.as_slice(),
            Field::Graph(_) => &[],
        }
    }

    /// The free points.
    pub fn free_points(&self, p: &Position) -> PointSet
        ensures members { (v : ℕ)
            → contains result v ≡ (nat_lt v (point_count self.now) && is_free p.now v) }
        ensures count { len result ≡ length (free_points self.now p.now) }
    {
        PointSet::all_below(self.points())
            .without(&p.x)
            .without(&p.y)
    }

    /// The lowest free point, and None exactly where no point is free.
    pub fn lowest_free(&self, p: &Position) -> Option<u16>
        ensures { result ≡ lowest_free self.now p.now }
    {
        p.lowest_free_below(self.points())
    }

    /// Whether no point is free.
    pub fn is_full(&self, p: &Position) -> bool
        ensures { result ≡ is_full self.now p.now }
    {
        self.lowest_free(p).is_none()
    }

    /// The game's marks with the side that is to move.
    pub fn start(&self) -> Position
        ensures { result ≡ start self.now }
    {
        self.with_turn(self.turn)
    }

    /// The game's marks at the beginning of a side's turn.
    pub fn with_turn(&self, turn: Side) -> Position
        ensures { result ≡ with_turn self.now turn }
    {
        Position {
            x: self.x,
            y: self.y,
            turn,
            left: claims_in_turn(self.bias, turn),
        }
    }

    /// How many points a side claims in one turn: 1 to 7.
    pub fn bias_of(&self, side: Side) -> u8
        ensures { result ≡ bias_of self.now side }
    {
        claims_in_turn(self.bias, side)
    }

    /// The position after the side to move takes the point.
    pub fn after(&self, p: &Position, v: u16) -> Position
        requires { v < MAX_MEMBERS }
        ensures { result ≡ after self.now p.now v }
    {
        p.after(self.bias, v)
    }
}
