//! Which positions a list of positions settles, by trying every move of its members.
ghost use Rattle.std.specs.Prelude.{◌≡◌, []};
ghost use Rattle.pg_plain.specs.Prelude.{AreBelow, point_count, IsMadeForGame, by_moves, is_listed};
ghost use Rattle.pg_plain.specs.Prelude.{settled};
ghost use Rattle.pg_plain.specs.Known.{with_move};

use crate::criteria::decided;
use pg_base::{Score, Side};
use pg_game::{Game, Judge, Position};

/// Whether the position is one of the list.
fn is_listed(table: &[Position], p: &Position) -> bool
    ensures { result ≡ is_listed table.now p.now }
{
    table.iter().any(|q| *p == *q)
}

/// What is known where there are no moves: the answer that the side to move doesn't want.
fn without_moves(turn: Side) -> Option<bool>
    ensures { result ≡ by_moves turn [] }
{
    match turn {
        Side::X => Some(false),
        Side::Y => Some(true),
    }
}

/// What is known with the answer of one move more.
fn with_move(turn: Side, answer: Option<bool>, known: Option<bool>) -> Option<bool>
    ensures { result ≡ with_move turn answer known }
{
    match (turn, answer, known) {
        (Side::X, Some(true), _) | (Side::Y, Some(false), _) => answer,
        (_, Some(_), _) => known,
        (Side::X, None, Some(true)) | (Side::Y, None, Some(false)) => known,
        (_, None, _) => None,
    }
}

/// The answer to which the list settles the position for the question whether X reaches the score:
/// that of the first criterion that applies, or for a member what the answers after all its moves
/// give.
///
/// X's points must be points of the game. The time grows with the number of all plays through
/// members of the list.
pub fn settled(
    judge: &mut Judge,
    g: &Game,
    wanted: Score,
    table: &[Position],
    p: &Position,
) -> Option<bool>
    requires made { IsMadeForGame judge.old g.now }
    requires range { AreBelow p.now.x (point_count g.now) }
    ensures settled { result ≡ settled g.now wanted table.now p.now }
    ensures kept { judge.new ≡ judge.old }
{
    let answer = decided(judge, g, wanted, p);
    if answer.is_some() {
        return answer;
    }
    if !is_listed(table, p) {
        return None;
    }
    let mut known = without_moves(p.turn);
    for v in (0..g.points()).rev() {
        if p.is_free(v) {
            let after = settled(judge, g, wanted, table, &g.after(p, v));
            known = with_move(p.turn, after, known);
        }
    }
    known
}
