//! The leaf of pairs at a position.
ghost use Rattle.std.specs.Prelude.{◌≡◌, ◌≢◌, ◌<◌, ◌++◌, List, IfOk, IfSome, is_some, length};
ghost use Rattle.pg_match.specs.Prelude.{All, AvoiderEnforcer, Pair};
ghost use Rattle.pg_match.specs.Meant.{PairUp};
ghost use Rattle.std.specs.FinSet as set;
ghost use Rattle.pg_match.specs.Prelude.{lines_of, free_points, PairsHold, unpaired, pairs_exist};
ghost use Rattle.pg_match.specs.Prelude.{avoider_can_pair, is_pairable};
ghost use Rattle.pg_match.specs.Cache.{Fits, IsAfterLeaf};

use crate::cache::PairCache;
use crate::matching::{Matching, short_by_count};
use crate::meant::lines_without;
use crate::rest::with_rest;
use pg_base::{Kind, MAX_MEMBERS, Memory, Pair, PointSet, Side};
use pg_game::{Field, Game, Position, breaker_of};
use std::alloc::Global;

/// Whether so many free points can all be paired but as Avoider may leave out.
fn is_pairable(turn: Side, free: u32) -> bool
    ensures { result ≡ is_pairable turn free }
{
    match turn {
        Side::X => free % 2 == 1,
        Side::Y => free % 2 == 0,
    }
}

/// Whether Avoider's pairs can hold all points that they must, where the game is Avoider-Enforcer.
fn avoider_can_pair(g: &Game, p: &Position, free: &PointSet) -> bool
    requires { set.len free.now ≡ length (free_points g.now p.now) }
    ensures { result ≡ avoider_can_pair g.now.kind g.now p.now }
{
    match g.kind {
        Kind::AvoiderEnforcer => g.bias == 1 && is_pairable(p.turn, free.len()),
        Kind::MakerBreaker | Kind::MakerMaker | Kind::Switching => true,
    }
}

/// Pairs that hold for the side, where private pairs exist for it, and None exactly where they
/// don't (pairing strategies are Hales and Jewett's, 1963). In Avoider-Enforcer the free points
/// left over are paired too, from the lowest upwards. Where two counts show that there are none,
/// the cache isn't asked.
///
/// # Errors
///
/// `Memory` where no memory is found; the cache may have been asked by then.
pub fn pairs_leaf(
    alloc: Global,
    g: &Game,
    p: &Position,
    side: Side,
    cache: &mut PairCache,
) -> Result<Option<Vec<Pair>>, Memory>
    requires fits { Fits cache.old (lines_of g.now) }
    ensures fits { Fits cache.new (lines_of g.now) }
    ensures cache { IsAfterLeaf g.now p.now side cache.old cache.new }
    ensures exist { IfOk result (λ found. is_some found ≡ pairs_exist g.now p.now side) }
    ensures hold { IfOk result
        (λ found. IfSome found (λ pairs. PairsHold g.now p.now side pairs.items)) }
{
    let Field::Lines(field) = &g.field else {
        return Ok(None);
    };
    let free = g.free_points(p);
    if !avoider_can_pair(g, p, &free) {
        return Ok(None);
    }
    let wanted = lines_without(alloc, &field.lines, p.points_of(breaker_of(g.kind, side)))?;
    if let Some(_family) = short_by_count(alloc, field.lines.as_slice(), &wanted, &free)? {
        return Ok(None);
    }
    match cache.ask(alloc, &field.lines, &wanted, &free)? {
        Matching::Pairs(pairs) => Ok(Some(completed(g, p, pairs)?)),
        Matching::Short(_) => Ok(None),
    }
}

/// In Avoider-Enforcer with pairs of the rest.
fn completed(g: &Game, p: &Position, pairs: Vec<Pair>) -> Result<Vec<Pair>, Memory>
    requires { All (λ s. (s.a < MAX_MEMBERS) × (s.b < MAX_MEMBERS)) pairs.items }
    ensures avoider { IfOk result (λ all. g.now.kind ≡ AvoiderEnforcer
        → (rest : List Pair) × (all.items ≡ pairs.items ++ rest)
        × PairUp (unpaired g.now p.now pairs.items) rest) }
    ensures others { IfOk result (λ all. (g.now.kind ≢ AvoiderEnforcer) → all.items ≡ pairs.items) }
{
    if g.kind == Kind::AvoiderEnforcer {
        with_rest(g, p, pairs)
    } else {
        Ok(pairs)
    }
}
