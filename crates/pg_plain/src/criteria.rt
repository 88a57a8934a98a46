//! Which positions are decided, criterion by criterion.
ghost use Rattle.std.specs.Prelude.{◌≡◌};
ghost use Rattle.pg_plain.specs.Prelude.{defends, answer_for, is_pairable, avoider_can_pair};
ghost use Rattle.pg_plain.specs.Prelude.{has_lines, pairs_exist, decided, AreBelow, point_count};
ghost use Rattle.pg_plain.specs.Prelude.{IsMadeForGame, breaker_of};

use crate::leaves::{avoider_holds, potential_holds};
use crate::private_pairs::have_private_pairs;
use crate::threat_search::attack_wins;
use pg_base::{Kind, Score, Side};
use pg_game::{Game, Judge, Position, at_least, defender};

/// Whether the potential of the kind holds for the side that defends.
fn defends(g: &Game, wanted: Score, p: &Position) -> bool
    ensures { result ≡ defends g.now.kind g.now wanted p.now }
{
    match g.kind {
        Kind::MakerBreaker => potential_holds(g, p, Side::Y),
        Kind::MakerMaker => potential_holds(g, p, defender(Kind::MakerMaker, wanted)),
        Kind::AvoiderEnforcer => avoider_holds(g, p),
        Kind::Switching => false,
    }
}

/// The answer that a side's criterion gives: yes for X.
fn answer_for(side: Side) -> bool
    ensures { result ≡ answer_for side }
{
    match side {
        Side::X => true,
        Side::Y => false,
    }
}

/// Whether so many free points can all be paired but as Avoider may leave out.
fn is_pairable(turn: Side, free: u32) -> bool
    ensures { result ≡ is_pairable turn free }
{
    match turn {
        Side::X => free % 2 == 1,
        Side::Y => free % 2 == 0,
    }
}

/// Whether Avoider's pairs can hold all points that they must, where the game is Avoider-Enforcer.
fn avoider_can_pair(g: &Game, p: &Position) -> bool
    ensures { result ≡ avoider_can_pair g.now.kind g.now p.now }
{
    match g.kind {
        Kind::AvoiderEnforcer => g.bias == 1 && is_pairable(p.turn, g.free_points(p).len()),
        Kind::MakerBreaker | Kind::MakerMaker | Kind::Switching => true,
    }
}

/// The side whose points make a line harmless to the claimer.
fn breaker_of(kind: Kind, side: Side) -> Side
    ensures { result ≡ breaker_of kind side }
{
    match kind {
        Kind::AvoiderEnforcer => Side::Y,
        Kind::MakerBreaker | Kind::MakerMaker | Kind::Switching => side,
    }
}

/// Whether the game is on lines.
fn has_lines(kind: Kind) -> bool
    ensures { result ≡ has_lines kind }
{
    match kind {
        Kind::Switching => false,
        Kind::MakerBreaker | Kind::MakerMaker | Kind::AvoiderEnforcer => true,
    }
}

/// Whether each line meant can have two free points of its own, all different. On a graph there are
/// no lines to mean, and the answer is no.
pub fn pairs_exist(g: &Game, p: &Position, side: Side) -> bool
    ensures { result ≡ pairs_exist g.now p.now side }
{
    if !has_lines(g.kind) {
        return false;
    }
    if !avoider_can_pair(g, p) {
        return false;
    }
    let own = p.points_of(breaker_of(g.kind, side));
    have_private_pairs(g.lines(), own, &g.free_points(p))
}

/// What the first criterion that applies answers to the question whether X reaches the score, and
/// None where none applies.
///
/// X's points must be points of the game.
pub fn decided(judge: &mut Judge, g: &Game, wanted: Score, p: &Position) -> Option<bool>
    requires made { IsMadeForGame judge.old g.now }
    requires range { AreBelow p.now.x (point_count g.now) }
    ensures decided { result ≡ decided g.now wanted p.now }
    ensures kept { judge.new ≡ judge.old }
{
    if let Some(score) = judge.over(g, p) {
        return Some(at_least(wanted, score));
    }
    let side = defender(g.kind, wanted);
    if defends(g, wanted, p) {
        return Some(answer_for(side));
    }
    if attack_wins(g, p) {
        return Some(answer_for(p.turn));
    }
    if pairs_exist(g, p, side) {
        return Some(answer_for(side));
    }
    None
}
