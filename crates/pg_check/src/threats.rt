//! Threat lines, attack by attack.
ghost use Rattle.std.specs.Prelude.{◌≡◌, ◌<◌, ◌↔◌, ℕ, true, false, IsTrue, IfSome, IfNone};
ghost use Rattle.pg_check.specs.Prelude.{All, list_any, contains, lines_of, has_filled, is_filled};
ghost use Rattle.pg_check.specs.Prelude.{after, IsPosition, points_of, IsMadeForGame, is_on};
ghost use Rattle.pg_check.specs.Prelude.{is_near, threatens, has_threat, IsAttack, Forcing};
ghost use Rattle.pg_check.specs.Prelude.{Filling, LeadsToLine, IsThreatLine};
ghost use Rattle.pg_check.specs.Lacked.{filled_but};
ghost use Rattle.pg_check.specs.Rounds.{IsAtMove};

use crate::rounds::rounds_lead;
use pg_base::{Kind, Line, MAX_MEMBERS, PointSet, Side};
use pg_game::{Game, Judge, Position};

/// Whether the set has all points of some line.
fn fills_some(g: &Game, points: &PointSet) -> bool
    ensures { result ≡ list_any (is_filled points.now) (lines_of g.now) }
{
    g.lines().iter().any(|line| points.has_all(line.as_slice()))
}

/// Like `fills_some`, but tries the line of that number first, if there is one.
fn fills_some_from(g: &Game, points: &PointSet, first: usize) -> bool
    ensures { result ≡ list_any (is_filled points.now) (lines_of g.now) }
{
    let lines = g.lines();
    if first < lines.len() && points.has_all(lines[first].as_slice()) {
        return true;
    }
    fills_some(g, points)
}

/// The point of the line that isn't in the set, where there is just one.
pub(crate) fn only_lacked(points: &PointSet, line: &Line) -> Option<u16>
    requires { All (λ v. v < MAX_MEMBERS) line.now }
    ensures one { IfSome result (λ u. (is_on u line.now ≡ true)
        × (contains points.now u ≡ false)
        × (filled_but points.now u line.now ≡ true)) }
    ensures few { IfSome result (λ u. u < MAX_MEMBERS) }
    ensures none { IfNone result ((u : ℕ) → is_on u line.now ≡ true
        → contains points.now u ≡ false
        → filled_but points.now u line.now ≡ true
        → ⊥) }
{
    let mut lacked = None;
    for i in 0..line.len() {
        let v = line.at(i);
        if !points.has(v) {
            if lacked.is_some() {
                return None;
            }
            lacked = Some(v);
        }
    }
    lacked
}

/// Whether the side lacks only one free point to fill the line.
fn is_nearly_filled(p: &Position, side: Side, line: &Line) -> bool
    requires { All (λ v. v < MAX_MEMBERS) line.now }
    ensures { result ≡ list_any (is_near p.now side line.now) line.now }
{
    match only_lacked(p.points_of(side), line) {
        Some(u) => p.is_free(u),
        None => false,
    }
}

/// Whether the side lacks only one free point to fill some line.
fn has_threat(g: &Game, p: &Position, side: Side) -> bool
    ensures { result ≡ has_threat g.now p.now side }
{
    g.lines().iter().any(|line| is_nearly_filled(p, side, line))
}

/// Whether the point is a free point of the game.
pub(crate) fn is_attack(g: &Game, p: &Position, v: u16) -> bool
    ensures attack { IsTrue result ↔ IsAttack g.now p.now v }
    ensures few { IsTrue result → v < MAX_MEMBERS }
{
    v < g.points() && p.is_free(v)
}

/// Whether the side has filled a line.
pub(crate) fn has_filled(g: &Game, p: &Position, side: Side) -> bool
    ensures { result ≡ has_filled g.now p.now side }
{
    fills_some(g, p.points_of(side))
}

/// Whether the side, which has filled no line, lacks only the free point u to fill some line. The
/// line of the number `first` is tried first, if there is one.
pub(crate) fn threatens(g: &Game, p: &Position, side: Side, u: u16, first: usize) -> bool
    requires { has_filled g.now p.now side ≡ false }
    ensures threat { result ≡ threatens g.now p.now side u }
    ensures few { IsTrue result → u < MAX_MEMBERS }
{
    if !is_attack(g, p, u) {
        return false;
    }
    let mut points = *p.points_of(side);
    points.put(u);
    fills_some_from(g, &points, first)
}

/// Whether taking v is an attack that fills no line, and after which the other side must take u.
fn is_forcing(g: &Game, p: &Position, side: Side, v: u16, u: u16) -> bool
    ensures forcing { IsTrue result ↔ Forcing g.now p.now side v u }
    ensures few { IsTrue result → (v < MAX_MEMBERS) × (u < MAX_MEMBERS) }
{
    if !is_attack(g, p, v) {
        return false;
    }
    let after = g.after(p, v);
    if g.kind == Kind::MakerMaker && has_threat(g, &after, side.other()) {
        return false;
    }
    !has_filled(g, &after, side) && threatens(g, &after, side, u, 0)
}

/// Whether taking v fills a line.
pub(crate) fn is_filling(g: &Game, p: &Position, side: Side, v: u16) -> bool
    ensures { IsTrue result ↔ Filling g.now p.now side v }
{
    is_attack(g, p, v) && has_filled(g, &g.after(p, v), side)
}

/// Whether taking v forces u, and taking w then fills a line.
fn fills_third(g: &Game, p: &Position, side: Side, v: u16, u: u16, w: u16) -> bool
    ensures { IsTrue result ↔ (Forcing g.now p.now side v u
        × Filling g.now (after g.now (after g.now p.now v) u) side w) }
{
    is_forcing(g, p, side, v, u) && is_filling(g, &g.after(&g.after(p, v), u), side, w)
}

/// Whether the attacks and forced replies, one after the other, end in an attack that fills a line.
/// A list of at most three points needs no table.
fn leads_to_line(g: &Game, p: &Position, side: Side, points: &[u16]) -> bool
    requires { IsAtMove g.now p.now side }
    ensures { IsTrue result ↔ LeadsToLine g.now p.now side points.now }
{
    match points {
        [] => false,
        [v] => is_filling(g, p, side, *v),
        [v, u, w] => fills_third(g, p, side, *v, *u, *w),
        _ => rounds_lead(g, p, side, points),
    }
}

/// Whether the points are a threat line of the side.
pub(crate) fn threat_holds(
    judge: &mut Judge,
    g: &Game,
    p: &Position,
    side: Side,
    points: &[u16],
) -> bool
    requires made { IsMadeForGame judge.old g.now }
    requires position { IsPosition g.now p.now }
    ensures line { IsTrue result ↔ IsThreatLine g.now p.now side points.now }
    ensures kept { judge.new ≡ judge.old }
{
    if g.bias != 1 || p.turn != side {
        return false;
    }
    judge.over(g, p).is_none() && leads_to_line(g, p, side, points)
}
