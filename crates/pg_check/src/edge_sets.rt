//! The two sets of edges that a node names, against the criteria of trees and of cuts.
ghost use Rattle.std.specs.Prelude.{◌≡◌, ◌↔◌, IsTrue};
ghost use Rattle.pg_check.specs.Prelude.{Switching, IsPosition, IsMadeForGame, room_of, TreesHold};
ghost use Rattle.pg_check.specs.Prelude.{CutsHold, with_e_named, AreEdgeSets};

use pg_base::PointSet;
use pg_cert::with_e_named;
use pg_game::{Game, Position};
use pg_graph::Joiner;

/// Whether both sets hold edges of the game only.
fn are_edge_sets(g: &Game, first: &PointSet, second: &PointSet) -> bool
    ensures { IsTrue result ↔ AreEdgeSets g.now first.now second.now }
{
    first.is_below(g.points()) && second.is_below(g.points())
}

/// Whether both sets are of the game's edges, and are trees for X, the first with e where that is
/// named.
pub(crate) fn trees_hold(
    joiner: &mut Option<Joiner>,
    g: &Game,
    p: &Position,
    with_e: bool,
    first: &PointSet,
    second: &PointSet,
) -> bool
    requires switching { g.now.kind ≡ Switching }
    requires made { IsMadeForGame (room_of joiner.old) g.now }
    requires position { IsPosition g.now p.now }
    ensures trees { IsTrue result
        ↔ (AreEdgeSets g.now first.now second.now
        × TreesHold g.now p.now (with_e_named g.now with_e first.now) second.now) }
    ensures kept { joiner.new ≡ joiner.old }
{
    let Some(joiner) = joiner else { unreachable!() };
    if !are_edge_sets(g, first, second) {
        return false;
    }
    pg_switch::trees_hold(g, joiner, p, &with_e_named(g, with_e, first), second)
}

/// Whether both sets are of the game's edges, and are cuts for Y, the first with e where that is
/// named.
pub(crate) fn cuts_hold(
    joiner: &mut Option<Joiner>,
    g: &Game,
    p: &Position,
    with_e: bool,
    first: &PointSet,
    second: &PointSet,
) -> bool
    requires switching { g.now.kind ≡ Switching }
    requires made { IsMadeForGame (room_of joiner.old) g.now }
    requires position { IsPosition g.now p.now }
    ensures cuts { IsTrue result
        ↔ (AreEdgeSets g.now first.now second.now
        × CutsHold g.now p.now (with_e_named g.now with_e first.now) second.now) }
    ensures kept { joiner.new ≡ joiner.old }
{
    let Some(joiner) = joiner else { unreachable!() };
    if !are_edge_sets(g, first, second) {
        return false;
    }
    pg_switch::cuts_hold(g, joiner, p, &with_e_named(g, with_e, first), second)
}
