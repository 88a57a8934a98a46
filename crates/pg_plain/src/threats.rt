//! Threat lines, attack by attack.
ghost use Rattle.std.specs.Prelude.{◌≡◌, ◌≢◌, ◌==◌, ◌||◌, ◌<◌, ◌↔◌, IsTrue};
ghost use Rattle.pg_plain.specs.Prelude.{All, list_all, list_any, contains, has_filled};
ghost use Rattle.pg_plain.specs.Prelude.{all_touched, is_over, is_near, threatens, has_threat};
ghost use Rattle.pg_plain.specs.Prelude.{IsAttack, Forcing, Filling, LeadsToLine, IsThreatLine};
ghost use Rattle.pg_plain.specs.Attacks.{IsGoing};

use crate::leaves::is_on;
use pg_base::{Kind, Line, MAX_MEMBERS, PointSet, Side};
use pg_game::{Game, MAX_POINTS, Position, is_over_by};

/// Whether the side has filled a line.
fn has_filled(g: &Game, p: &Position, side: Side) -> bool
    ensures { result ≡ has_filled g.now p.now side }
{
    let own = p.points_of(side);
    g.lines().iter().any(|line| own.has_all(line.as_slice()))
}

/// Whether every line has a point of Y.
fn all_touched(g: &Game, p: &Position) -> bool
    ensures { result ≡ all_touched g.now p.now }
{
    g.lines().iter().all(|line| p.y.meets(line.as_slice()))
}

/// Whether a game on lines is over.
#[tactic(auto, unfolding(pg_game::specs::Game::is_over))]
fn is_over(g: &Game, p: &Position) -> bool
    requires { g.now.kind ≢ Kind.Switching }
    ensures { result ≡ is_over g.now p.now }
{
    let x_filled = has_filled(g, p, Side::X);
    let y_filled = has_filled(g, p, Side::Y);
    is_over_by(g.kind, x_filled, y_filled, all_touched(g, p), g.is_full(p))
}

/// Whether each point of the line but u is in the set.
fn is_filled_but(points: &PointSet, line: &Line, u: u16) -> bool
    requires { All (λ v. v < MAX_POINTS) line.now }
    ensures { result ≡ list_all (λ q. q == u || contains points.now q) line.now }
{
    line.as_slice().iter().all(|q| *q == u || points.has(*q))
}

/// Whether all points of the line are the side's but u, which is on it and free.
fn is_near(p: &Position, side: Side, line: &Line, u: u16) -> bool
    requires { All (λ v. v < MAX_POINTS) line.now }
    ensures { result ≡ is_near p.now side line.now u }
{
    if !is_on(u, line) {
        return false;
    }
    p.is_free(u) && is_filled_but(p.points_of(side), line, u)
}

/// Whether the side lacks only the free point u to fill some line.
fn threatens(g: &Game, p: &Position, side: Side, u: u16) -> bool
    ensures { result ≡ threatens g.now p.now side u }
{
    g.lines().iter().any(|line| is_near(p, side, line, u))
}

/// Whether the side lacks only one free point to fill the line.
fn is_nearly_filled(p: &Position, side: Side, line: &Line) -> bool
    requires { All (λ v. v < MAX_POINTS) line.now }
    ensures { result ≡ list_any (is_near p.now side line.now) line.now }
{
    line.as_slice().iter().any(|u| is_near(p, side, line, *u))
}

/// Whether the side lacks only one free point to fill some line.
fn has_threat(g: &Game, p: &Position, side: Side) -> bool
    ensures { result ≡ has_threat g.now p.now side }
{
    g.lines().iter().any(|line| is_nearly_filled(p, side, line))
}

/// Whether the point is a free point of the game.
fn is_attack(g: &Game, p: &Position, v: u16) -> bool
    ensures attack { IsTrue result ↔ IsAttack g.now p.now v }
    ensures few { IsTrue result → v < MAX_MEMBERS }
{
    v < g.points() && p.is_free(v)
}

/// Whether taking v is an attack that fills no line, and after which the other side must take u.
pub(crate) fn is_forcing(g: &Game, p: &Position, side: Side, v: u16, u: u16) -> bool
    ensures forcing { IsTrue result ↔ Forcing g.now p.now side v u }
    ensures few { IsTrue result → (v < MAX_MEMBERS) × (u < MAX_MEMBERS) }
{
    if !is_attack(g, p, v) {
        return false;
    }
    let after = g.after(p, v);
    if g.kind == Kind::MakerMaker && has_threat(g, &after, side.other()) {
        return false;
    }
    !has_filled(g, &after, side) && threatens(g, &after, side, u)
}

/// Whether taking v fills a line.
pub(crate) fn is_filling(g: &Game, p: &Position, side: Side, v: u16) -> bool
    ensures { IsTrue result ↔ Filling g.now p.now side v }
{
    is_attack(g, p, v) && has_filled(g, &g.after(p, v), side)
}

/// Whether the attacks and forced replies, one after the other, end in an attack that fills a line.
fn leads_to_line(g: &Game, p: &Position, side: Side, points: &[u16]) -> bool
    ensures { IsTrue result ↔ LeadsToLine g.now p.now side points.now }
{
    match points {
        [] => false,
        [v] => is_filling(g, p, side, *v),
        [v, u, others @ ..] => {
            is_forcing(g, p, side, *v, *u)
                && leads_to_line(g, &g.after(&g.after(p, *v), *u), side, others)
        }
    }
}

/// Whether each side claims one point a turn in a game on lines that isn't over.
pub(crate) fn is_going(g: &Game, p: &Position) -> bool
    ensures { IsTrue result ↔ IsGoing g.now p.now }
{
    if g.kind == Kind::Switching {
        return false;
    }
    g.bias == 1 && !is_over(g, p)
}

/// Whether the side is to move in a game that isn't over and in which each side claims one point a
/// turn, and the attacks and forced replies of the list, one after the other, end in an attack that
/// fills a line. On a graph no list does.
pub fn is_threat_line(g: &Game, p: &Position, side: Side, points: &[u16]) -> bool
    ensures { IsTrue result ↔ IsThreatLine g.now p.now side points.now }
{
    if g.kind == Kind::Switching || g.bias != 1 || p.turn != side {
        return false;
    }
    !is_over(g, p) && leads_to_line(g, p, side, points)
}
