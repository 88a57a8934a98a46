//! The lightest lines of a position.
ghost use Rattle.std.specs.Prelude.{◌≡◌, ◌<◌, ◌≤◌, length};
ghost use Rattle.pg_captions.specs.Prelude.{All, MAX_MEMBERS, greatest_length, lines_of};
ghost use Rattle.pg_captions.specs.Lightest.{base_of, free_on, most_free, own_of};

use pg_base::{Kind, Line, PointSet, Side};
use pg_game::{Game, Position};

/// Returns what a line's weight is multiplied by with each free point that it loses.
pub fn base_of(g: &Game) -> u8
    ensures { result ≡ base_of g.now.kind g.now.bias }
{
    match g.kind {
        Kind::AvoiderEnforcer => 2,
        Kind::MakerBreaker | Kind::MakerMaker | Kind::Switching => 1 + g.bias,
    }
}

/// Returns the points that take a line's weight: Enforcer's, or the claimer's.
pub fn own_of<'a>(g: &Game, p: &'a Position, side: Side) -> &'a PointSet
    ensures { result.now ≡ own_of g.now.kind p.now side }
{
    match g.kind {
        Kind::AvoiderEnforcer => &p.y,
        Kind::MakerBreaker | Kind::MakerMaker | Kind::Switching => p.points_of(side),
    }
}

/// How many free points a line has that none of the points takes.
fn free_on(own: &PointSet, p: &Position, line: &Line) -> usize
    requires { All (λ v. v < MAX_MEMBERS) line.now }
    ensures free { result ≡ free_on own.now p.now line.now }
    ensures few { result ≤ length line.now }
{
    let mut free = 0;
    for v in line.as_slice() {
        if own.has(*v) {
            return 0;
        }
        if p.is_free(*v) {
            free += 1;
        }
    }
    free
}

/// The greatest number of free points of a line that none of the points takes, and 0 where there is
/// none.
fn most_free_of(own: &PointSet, p: &Position, lines: &[Line]) -> usize
    requires { All (All (λ v. v < MAX_MEMBERS)) lines.now }
    ensures most { result ≡ most_free own.now p.now lines.now }
    ensures few { result ≤ greatest_length lines.now }
{
    let mut most = 0;
    for line in lines {
        let free = free_on(own, p, line);
        if free > most {
            most = free;
        }
    }
    most
}

/// Returns the number of free points of a line that weighs one unit for the claimer.
pub fn most_free(g: &Game, p: &Position, side: Side) -> usize
    ensures most { result ≡ most_free (own_of g.now.kind p.now side) p.now (lines_of g.now) }
    ensures few { result ≤ greatest_length (lines_of g.now) }
{
    most_free_of(own_of(g, p, side), p, g.lines())
}
