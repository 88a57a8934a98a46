//! The potentials of Breaker and of Avoider.
use crate::lines::potential_holds;
use crate::told::{asked_side, due, is_point, turn_of, yes_or_no};
use pg_base::{Kind, Side};
use pg_game::Game;
use pg_plain::{part, word};

/// The word for whether a side's potential holds with this side to move, in a game on lines.
fn potential_word(g: &Game, turn: Side, side: Side) -> &'static str {
    yes_or_no(g.kind != Kind::Switching && potential_holds(g, &turn_of(g, turn), side))
}

/// Whether the words tell whether the side's potential holds with X and with Y to move.
fn are_potentials(g: &Game, side: Side, with_x: &str, with_y: &str) -> bool {
    potential_word(g, Side::X, side) == with_x && potential_word(g, Side::Y, side) == with_y
}

/// Whether the row tells the total for the side as Breaker, the limit, and whether the potential
/// holds with X and with Y to move.
pub(crate) fn is_breaker(g: &Game, row: &str) -> Option<bool> {
    let (side, text) = (asked_side(row), due(row));
    let total = word(text, 0).parse::<u128>().ok()?;
    let limit = word(text, 1).parse::<u128>().ok()?;
    let same = total == pg_potential::total(g, &turn_of(g, Side::X), side);
    let holds = are_potentials(g, side, word(text, 2), word(text, 3));
    Some(same && limit == pg_potential::limit(g) && holds)
}

/// Whether the row tells whether Avoider's potential holds with X and with Y to move.
pub(crate) fn is_avoider(g: &Game, row: &str) -> bool {
    are_potentials(g, asked_side(row), word(due(row), 0), word(due(row), 1))
}

/// What a free point of a game on lines weighs for the side.
fn weight_at(g: &Game, side: Side, v: u16) -> Option<u128> {
    let p = turn_of(g, Side::X);
    if g.kind == Kind::Switching || v >= g.points() || !p.is_free(v) {
        return None;
    }
    Some(pg_potential::weight(g, &p, side, v))
}

/// Whether the row tells what its point weighs for the side as Breaker.
pub(crate) fn is_weight(g: &Game, row: &str) -> Option<bool> {
    let v = part(row, 5).parse::<u16>().ok()?;
    Some(weight_at(g, asked_side(row), v)? == due(row).parse::<u128>().ok()?)
}

/// The answer by the potential, Avoider's or Breaker's by the kind, of the side that is to move, in
/// a game on lines with a free point.
fn answer_of(g: &Game, side: Side) -> Option<u16> {
    let p = turn_of(g, side);
    if g.kind == Kind::Switching || g.is_full(&p) {
        return None;
    }
    if g.kind == Kind::AvoiderEnforcer {
        return Some(pg_potential::avoider::answer(g, &p));
    }
    Some(pg_potential::answer(g, &p, side))
}

/// Whether the row tells that answer.
pub(crate) fn is_answer(g: &Game, row: &str) -> bool {
    is_point(answer_of(g, asked_side(row)), due(row))
}
