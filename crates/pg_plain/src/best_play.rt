//! The value of a position, by trying every move.
ghost use Rattle.std.specs.Prelude.{◌≡◌, []};
ghost use Rattle.pg_plain.specs.Prelude.{AreBelow, point_count, IsMadeForGame, best, better, value};

use pg_base::{Score, Side};
use pg_game::{Game, Judge, Position};

/// The score that a side likes more.
fn better(side: Side, s: Score, t: Score) -> Score
    ensures { result ≡ better side s t }
{
    match (side, s, t) {
        (Side::X, Score::XWins, _) | (Side::Y, Score::YWins, _) => s,
        (Side::X, Score::YWins, _) | (Side::Y, Score::XWins, _) => t,
        (Side::X, Score::Draw, Score::XWins) | (Side::Y, Score::Draw, Score::YWins) => t,
        (_, Score::Draw, _) => s,
    }
}

/// The best score for a side of none: what it likes least.
fn worst(side: Side) -> Score
    ensures { result ≡ best side [] }
{
    match side {
        Side::X => Score::YWins,
        Side::Y => Score::XWins,
    }
}

/// The value of the position: the outcome where it is over, else the best for the side to move of
/// the values after each move.
///
/// X's points must be points of the game. The time grows with the number of all plays.
pub fn value(judge: &mut Judge, g: &Game, p: &Position) -> Score
    requires made { IsMadeForGame judge.old g.now }
    requires range { AreBelow p.now.x (point_count g.now) }
    ensures value { result ≡ value g.now p.now }
    ensures kept { judge.new ≡ judge.old }
{
    if let Some(score) = judge.over(g, p) {
        return score;
    }
    let mut best = worst(p.turn);
    for v in (0..g.points()).rev() {
        if p.is_free(v) {
            let after = value(judge, g, &g.after(p, v));
            best = better(p.turn, after, best);
        }
    }
    best
}
