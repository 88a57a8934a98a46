//! Nodes that stand on a criterion.
ghost use Rattle.std.specs.Prelude.{◌≡◌, ◌≢◌, ◌↔◌, IsTrue, true, ℕ};
ghost use Rattle.pg_check.specs.Prelude.{Switching, Side, Goal, IsPosition, IsMadeForGame, room_of};
ghost use Rattle.pg_check.specs.Prelude.{HasPairs, PotentialFits, HasPotential, HasTrees, HasCuts};
ghost use Rattle.pg_check.specs.Prelude.{HasThreat, is_allowed, AreMasksOf};

use crate::edge_sets::{cuts_hold, trees_hold};
use crate::threats::threat_holds;
use pg_base::{Goal, Kind, Side};
use pg_cert::Body;
use pg_game::{Game, Judge, Position};
use pg_graph::Joiner;
use pg_potential::Mask;

/// Whether pairs meet their condition.
pub(crate) fn has_pairs(g: &Game, side: Side, p: &Position, body: &Body) -> bool
    requires { IsPosition g.now p.now }
    ensures { IsTrue result ↔ HasPairs g.now side p.now body.now }
{
    let Body::Pairs(pairs) = body else {
        return true;
    };
    pg_pairing::holds(g, p, side, pairs.as_slice())
}

/// Whether Breaker's potential, or Avoider's by the kind, is low enough.
fn potential_fits(masks: &[Mask], g: &Game, side: Side, p: &Position) -> bool
    requires lines { g.now.kind ≢ Switching }
    requires masks { AreMasksOf g.now masks.now }
    requires position { IsPosition g.now p.now }
    ensures { IsTrue result ↔ PotentialFits g.now.kind g.now p.now side }
{
    match g.kind {
        Kind::AvoiderEnforcer => pg_potential::avoider::holds(g, p),
        Kind::MakerBreaker | Kind::MakerMaker | Kind::Switching => {
            pg_potential::holds_by_masks(masks, g, p, side)
        }
    }
}

/// Whether a potential meets its condition.
pub(crate) fn has_potential(masks: &[Mask], g: &Game, side: Side, p: &Position, body: &Body) -> bool
    requires allowed { (bias : ℕ) × (s : Side) × (goal : Goal)
        × (is_allowed g.now.kind bias s goal body.now ≡ true) }
    requires masks { AreMasksOf g.now masks.now }
    requires position { IsPosition g.now p.now }
    ensures { IsTrue result ↔ HasPotential g.now side p.now body.now }
{
    let Body::Potential = body else {
        return true;
    };
    potential_fits(masks, g, side, p)
}

/// Whether the sets of edges are trees.
pub(crate) fn has_trees(joiner: &mut Option<Joiner>, g: &Game, p: &Position, body: &Body) -> bool
    requires allowed { (bias : ℕ) × (s : Side) × (goal : Goal)
        × (is_allowed g.now.kind bias s goal body.now ≡ true) }
    requires made { IsMadeForGame (room_of joiner.old) g.now }
    requires position { IsPosition g.now p.now }
    ensures trees { IsTrue result ↔ HasTrees g.now p.now body.now }
    ensures kept { joiner.new ≡ joiner.old }
{
    let Body::Trees {
        with_e,
        first,
        second,
    } = body
    else {
        return true;
    };
    trees_hold(joiner, g, p, *with_e, first.as_set(), second.as_set())
}

/// Whether the sets of edges are cuts.
pub(crate) fn has_cuts(joiner: &mut Option<Joiner>, g: &Game, p: &Position, body: &Body) -> bool
    requires allowed { (bias : ℕ) × (s : Side) × (goal : Goal)
        × (is_allowed g.now.kind bias s goal body.now ≡ true) }
    requires made { IsMadeForGame (room_of joiner.old) g.now }
    requires position { IsPosition g.now p.now }
    ensures cuts { IsTrue result ↔ HasCuts g.now p.now body.now }
    ensures kept { joiner.new ≡ joiner.old }
{
    let Body::Cuts {
        with_e,
        first,
        second,
    } = body
    else {
        return true;
    };
    cuts_hold(joiner, g, p, *with_e, first.as_set(), second.as_set())
}

/// Whether the points are a threat line.
pub(crate) fn has_threat(judge: &mut Judge, g: &Game, side: Side, p: &Position, body: &Body) -> bool
    requires made { IsMadeForGame judge.old g.now }
    requires position { IsPosition g.now p.now }
    ensures threat { IsTrue result ↔ HasThreat g.now side p.now body.now }
    ensures kept { judge.new ≡ judge.old }
{
    let Body::Threat(points) = body else {
        return true;
    };
    threat_holds(judge, g, p, side, points.as_slice())
}
