//! Trees and cuts at a game's marks.
ghost use Rattle.std.specs.Prelude.{◌≡◌, ◌<◌, ◌↔◌, suc, length, IfOk, IsTrue};
ghost use Rattle.pg_gf2.specs.Prelude.{contains, ShareNone, plus, Side, kept, AreFree, AreFreeOrE};
ghost use Rattle.pg_gf2.specs.Classes.{with_target, at_turn, TreesAt, CutsAt};

use crate::game::VecGame;
use crate::sums::{are_bridges, spans_all};
use pg_base::{MAX_MEMBERS, Memory, PointSet, Side};
use std::alloc::Global;

/// The number of e, which is that of the game's vectors.
pub(crate) fn number_of_e(g: &VecGame) -> u16
    ensures number { result ≡ length g.now.vectors }
    ensures range { result < MAX_MEMBERS }
{
    g.vectors.as_slice().len() as u16
}

/// The set with one more point.
fn with_point(set: &PointSet, v: u16) -> PointSet
    requires { v < MAX_MEMBERS }
    ensures { contains result ≡ plus (contains set.now) v }
{
    let mut more = *set;
    more.put(v);
    more
}

/// The vectors that aren't Y's, and e.
fn kept(g: &VecGame) -> PointSet
    ensures { (turn : Side)
        → contains result ≡ kept (suc (length g.now.vectors)) (at_turn g.now turn) }
{
    PointSet::all_below(number_of_e(g) + 1).without(&g.y)
}

/// Whether the set has free vectors alone.
fn are_free(g: &VecGame, set: &PointSet) -> bool
    ensures { (turn : Side)
        → IsTrue result ↔ AreFree (length g.now.vectors) (at_turn g.now turn) set.now }
{
    set.is_below(number_of_e(g)) && set.shares_none(&g.x) && set.shares_none(&g.y)
}

/// Whether the side is to move.
fn moves(turn: Side, side: Side) -> bool
    ensures { IsTrue result ↔ turn ≡ side }
{
    turn == side
}

/// Whether the set has free vectors alone, but for e where the side is to move.
fn are_free_or_e(g: &VecGame, turn: Side, side: Side, set: &PointSet) -> bool
    ensures { IsTrue result ↔ AreFreeOrE (length g.now.vectors) (at_turn g.now turn) side set.now }
{
    let e = number_of_e(g);
    let mut vectors = *set;
    vectors.take(e);
    are_free(g, &vectors) && (moves(turn, side) || !set.has(e))
}

/// Whether the sets are disjoint sets of free vectors, the first perhaps with e where the side is
/// to move.
fn are_apart(g: &VecGame, turn: Side, side: Side, first: &PointSet, second: &PointSet) -> bool
    ensures { IsTrue result
        ↔ (AreFreeOrE (length g.now.vectors) (at_turn g.now turn) side first.now
        × AreFree (length g.now.vectors) (at_turn g.now turn) second.now
        × ShareNone first.now second.now) }
{
    are_free_or_e(g, turn, side, first) && are_free(g, second) && first.shares_none(second)
}

/// Whether the sets are trees where X wants the target, which is the last vector of the list.
pub(crate) fn are_trees(
    alloc: Global,
    g: &VecGame,
    vectors: &[u128],
    turn: Side,
    first: &PointSet,
    second: &PointSet,
) -> Result<bool, Memory>
    requires { vectors.now ≡ with_target g.now }
    ensures { IfOk result (λ b. IsTrue b ↔ TreesAt g.now turn first.now second.now) }
{
    if !are_apart(g, turn, Side::X, first, second) {
        return Ok(false);
    }
    let e = number_of_e(g);
    if !spans_all(alloc, vectors, &g.x.union(first), &with_point(second, e))? {
        return Ok(false);
    }
    spans_all(alloc, vectors, &g.x.union(second), &with_point(first, e))
}

/// Whether the sets are cuts where X wants the target, which is the last vector of the list.
pub(crate) fn are_cuts(
    alloc: Global,
    g: &VecGame,
    vectors: &[u128],
    turn: Side,
    first: &PointSet,
    second: &PointSet,
) -> Result<bool, Memory>
    requires { vectors.now ≡ with_target g.now }
    ensures { IfOk result (λ b. IsTrue b ↔ CutsAt g.now turn first.now second.now) }
{
    if !are_apart(g, turn, Side::Y, first, second) {
        return Ok(false);
    }
    let e = number_of_e(g);
    let left = kept(g);
    let parted = with_point(second, e).without(first);
    if !are_bridges(alloc, vectors, &left.without(first), &parted)? {
        return Ok(false);
    }
    are_bridges(alloc, vectors, &left.without(second), &with_point(first, e))
}
