//! Which bodies are allowed, and which nodes stand on the game's points.
ghost use Rattle.std.specs.Prelude.{◌≡◌, ◌≤◌, ◌↔◌, IsTrue, length};
ghost use Rattle.pg_check.specs.Prelude.{AreBelow, point_count, is_allowed, shows_defence};
ghost use Rattle.pg_check.specs.Prelude.{shows_trees, shows_cuts, pairs_fit, allows_weaker};
ghost use Rattle.pg_check.specs.Prelude.{IsInGame};
ghost use Rattle.pg_check.specs.Tester.{AreInside, ArePointsOf};

use pg_base::{Goal, Kind, MAX_MEMBERS, PointSet, Side};
use pg_cert::{Body, Node};
use pg_game::{Game, may_attack};

/// Whether pairs or a potential can show the goal.
fn shows_defence(kind: Kind, side: Side, goal: Goal) -> bool
    ensures { result ≡ shows_defence kind side goal }
{
    match kind {
        Kind::MakerBreaker => matches!(side, Side::Y),
        Kind::MakerMaker => matches!(goal, Goal::Draw),
        Kind::AvoiderEnforcer => matches!(side, Side::X),
        Kind::Switching => false,
    }
}

/// Whether the side is Short.
fn shows_trees(kind: Kind, side: Side) -> bool
    ensures { result ≡ shows_trees kind side }
{
    matches!(kind, Kind::Switching) && matches!(side, Side::X)
}

/// Whether the side is Cut.
fn shows_cuts(kind: Kind, side: Side) -> bool
    ensures { result ≡ shows_cuts kind side }
{
    matches!(kind, Kind::Switching) && matches!(side, Side::Y)
}

/// Whether pairs are a means where Y claims `bias` points a turn.
fn pairs_fit(kind: Kind, bias: u8) -> bool
    ensures { result ≡ pairs_fit kind bias }
{
    match kind {
        Kind::AvoiderEnforcer => bias == 1,
        Kind::MakerBreaker | Kind::MakerMaker | Kind::Switching => true,
    }
}

/// Whether a weaker position serves as well in games of the kind.
fn allows_weaker(kind: Kind) -> bool
    ensures { result ≡ allows_weaker kind }
{
    matches!(kind, Kind::MakerBreaker)
}

/// Whether the body is allowed for the side and its goal.
pub(crate) fn is_allowed(kind: Kind, bias: u8, side: Side, goal: Goal, body: &Body) -> bool
    ensures { result ≡ is_allowed kind bias side goal body.now }
{
    match body {
        Body::Over | Body::Move { .. } | Body::All(_) => true,
        Body::Pairs(_) => shows_defence(kind, side, goal) && pairs_fit(kind, bias),
        Body::Potential => shows_defence(kind, side, goal),
        Body::Trees { .. } => shows_trees(kind, side),
        Body::Cuts { .. } => shows_cuts(kind, side),
        Body::Threat(_) => may_attack(kind, side) && bias == 1,
        Body::Weaker { .. } => allows_weaker(kind),
    }
}

/// The bits of the first rows and of the second ones that the third ones lack.
fn bits_outside(first: &[u64], second: &[u64], inside: &[u64]) -> u64
    requires first { 16 ≤ length first.now }
    requires second { 16 ≤ length second.now }
    requires inside { 16 ≤ length inside.now }
    ensures each { result ≡ 0 → AreInside first.now second.now inside.now 16 }
    ensures none { AreInside first.now second.now inside.now 16 → result ≡ 0 }
{
    let mut outside = 0;
    for i in 0..16 {
        outside |= (first[i] & !inside[i]) | (second[i] & !inside[i]);
    }
    outside
}

/// Whether the marks of both sides are points of the game, all given. They are looked at row by
/// row, without a way out between.
fn are_points(points: &PointSet, g: &Game, x: &PointSet, y: &PointSet) -> bool
    requires { ArePointsOf points.now g.now }
    ensures { IsTrue result
        ↔ (AreBelow x.now (point_count g.now) × AreBelow y.now (point_count g.now)) }
{
    let _count = g.points();
    if !x.is_below(MAX_MEMBERS) || !y.is_below(MAX_MEMBERS) {
        return false;
    }
    bits_outside(x.words(), y.words(), points.words()) == 0
}

/// Whether the node's marks are points of the game, all given, and its side claims no more
/// than in a whole turn.
pub(crate) fn is_in_game(points: &PointSet, g: &Game, node: &Node) -> bool
    requires { ArePointsOf points.now g.now }
    ensures { IsTrue result ↔ IsInGame g.now node.now }
{
    are_points(points, g, &node.x, &node.y) && node.left <= g.bias_of(node.turn)
}
