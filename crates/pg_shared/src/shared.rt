//! Shared pairs at a position.
ghost use Rattle.std.specs.Prelude.{◌≡◌, ◌<◌, IfOk, IfSome, length};
ghost use Rattle.pg_shared.specs.Prelude.{All, AvoiderEnforcer, MAX_MEMBERS, Pair, len};
ghost use Rattle.pg_shared.specs.Prelude.{free_points};
ghost use Rattle.pg_shared.specs.Prelude.{IsPosition, PairsHold, avoider_can_pair, is_pairable};

use crate::lines::{OpenLine, is_hopeless, least_lines, open_lines};
use crate::seeking::seek;
use pg_base::{Kind, Memory, Pair, PointSet, Side};
use pg_game::{Game, Position, breaker_of};
use pg_match::with_rest;
use pg_pairing::holds;
use std::alloc::Global;

/// Whether so many free points can all be paired but as Avoider may leave out.
fn is_pairable(turn: Side, free: u32) -> bool
    ensures { result ≡ is_pairable turn free }
{
    match turn {
        Side::X => free % 2 == 1,
        Side::Y => free % 2 == 0,
    }
}

/// Whether there are lines, and Avoider's pairs can hold all points that they must, where the game
/// is Avoider-Enforcer.
fn may_pair(g: &Game, p: &Position) -> bool {
    match g.kind {
        Kind::AvoiderEnforcer => g.bias == 1 && is_pairable(p.turn, g.free_points(p).len()),
        Kind::MakerBreaker | Kind::MakerMaker => true,
        Kind::Switching => false,
    }
}

/// In Avoider-Enforcer with pairs of the other free points.
fn completed(g: &Game, p: &Position, pairs: Vec<Pair>) -> Result<Vec<Pair>, Memory>
    requires { All (λ s. (s.a < MAX_MEMBERS) × (s.b < MAX_MEMBERS)) pairs.items }
{
    if g.kind == Kind::AvoiderEnforcer {
        with_rest(g, p, pairs)
    } else {
        Ok(pairs)
    }
}

/// Pairs of free points such that each line meant holds one, where at most so many steps find them.
fn found_for(
    alloc: Global,
    g: &Game,
    p: &Position,
    own: &PointSet,
    budget: u32,
) -> Result<Option<Vec<Pair>>, Memory>
    ensures { IfOk result (λ found. IfSome found
        (λ pairs. All (λ s. (s.a < MAX_MEMBERS) × (s.b < MAX_MEMBERS)) pairs.items)) }
{
    let lines = open_lines(alloc, g, p, own)?;
    if is_hopeless(&lines) {
        return Ok(None);
    }
    let least = least_lines(alloc, &lines)?;
    seek(alloc, least, budget)
}

/// Pairs that hold for the side, two free points for each line meant, where at most so many steps
/// find them. Two lines may have the same pair, so there may be such pairs where there are no
/// private ones. In Avoider-Enforcer the free points left over are paired too, from the lowest
/// upwards.
///
/// Of the lines meant, less the points that are taken, those within which no other is are kept. The
/// line with the fewest points in no pair is given one first, by all pairs of its points in turn,
/// but for those that leave some line with fewer than two. First comes the pair that costs least:
/// it is in many lines, and takes a point of few that have few. A step chooses a pair or gives one
/// up, and goes over the lines once for each pair of points of a line. None comes too where the
/// steps are spent.
///
/// Pairing strategies are Hales and Jewett's (Regularity and positional games, 1963).
///
/// # Errors
///
/// `Memory` where no memory is found.
pub fn shared_pairs(
    alloc: Global,
    g: &Game,
    p: &Position,
    side: Side,
    budget: u32,
) -> Result<Option<Vec<Pair>>, Memory>
    requires { IsPosition g.now p.now }
    ensures { IfOk result
        (λ found. IfSome found (λ pairs. PairsHold g.now p.now side pairs.items)) }
{
    if !may_pair(g, p) {
        return Ok(None);
    }
    let own = p.points_of(breaker_of(g.kind, side));
    let Some(found) = found_for(alloc, g, p, own, budget)? else {
        return Ok(None);
    };
    let pairs = completed(g, p, found)?;
    if holds(g, p, side, &pairs) {
        Ok(Some(pairs))
    } else {
        Ok(None)
    }
}
