//! Pairs, and the answers by them.
ghost use Rattle.std.specs.Prelude.{IfSome};
ghost use Rattle.pg_game.specs.Game.{IsPosition};

use crate::told::{asked_side, due, is_point, turn_of, yes_or_no};
use pg_base::{Pair, Side};
use pg_game::{Game, Position};
use pg_pairing::{answer, holds};
use pg_plain::{numbers, pairs, part};
use std::alloc::Global;

/// The position after a move, where the point is free.
fn played(g: &Game, p: &Position, v: u16) -> Option<Position>
    requires { IsPosition g.now p.now }
    ensures { IfSome result (IsPosition g.now) }
{
    if v < g.points() && p.is_free(v) {
        Some(g.after(p, v))
    } else {
        None
    }
}

/// The position after the moves, where each is to a free point.
fn after_plays(g: &Game, plays: &[u16]) -> Option<Position>
    ensures { IfSome result (IsPosition g.now) }
{
    let mut p = turn_of(g, Side::X);
    for v in plays {
        p = played(g, &p, *v)?;
    }
    Some(p)
}

/// The answer of the side to the last reply, where the pairs hold for it at the beginning of X's
/// turn and some point is free now.
fn answer_at(g: &Game, side: Side, p: &Position, pairs: &[Pair], last: Option<u16>) -> Option<u16>
    requires { IsPosition g.now p.now }
{
    if !holds(g, &turn_of(g, Side::X), side, pairs) || g.is_full(p) {
        return None;
    }
    Some(answer(g, p, pairs, last))
}

/// Whether the row tells whether its pairs hold for its side.
pub(crate) fn are_pairs(alloc: Global, g: &Game, row: &str) -> Option<bool> {
    let pairs = pairs(alloc, part(row, 5))?;
    Some(yes_or_no(holds(g, &turn_of(g, g.turn), asked_side(row), &pairs)) == due(row))
}

/// Whether the row tells the side's answer by its pairs after the moves, to the reply of another.
pub(crate) fn is_answer(alloc: Global, g: &Game, row: &str) -> Option<bool> {
    let pairs = pairs(alloc, part(row, 5))?;
    let p = after_plays(g, &numbers(alloc, part(row, 6))?)?;
    let last = part(row, 7).parse::<u16>().ok();
    Some(is_point(answer_at(g, asked_side(row), &p, &pairs, last), due(row)))
}
