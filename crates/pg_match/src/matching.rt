//! Private pairs of points for lines.
ghost use Rattle.std.specs.Prelude.{◌≡◌, ◌<◌, ◌≤◌, IfOk, IfSome, length, filter};
ghost use Rattle.std.specs.List.{All};
ghost use Rattle.std.specs.FinSet as set;
ghost use Rattle.pg_match.specs.Private.{CanMatch, IsShort, IsMatching, HasPointsBelow, told};
ghost use Rattle.pg_match.specs.Pairing.{ordered, seat_pairs};

use crate::chain::Chain;
use crate::seats::Seats;
use pg_base::{Line, Lines, MAX_MEMBERS, Memory, Pair, PointSet};
use std::alloc::Global;

/// Private pairs, or lines that have none. Exactly one of the two can be, by Hall's theorem (1935)
/// with two points a line.
#[derive(Debug, Drop)]
pub enum Matching {
    /// A pair for each wanted line in order, the lower point first. All points are different.
    Pairs(Vec<Pair>),
    /// Different wanted lines, which hold fewer free points together than two for each.
    Short(Vec<u32>),
}

/// The pair of two points, the lower first.
fn ordered(u: u16, v: u16) -> Pair
    ensures { result ≡ ordered u v }
{
    if u < v {
        Pair { a: u, b: v }
    } else {
        Pair { a: v, b: u }
    }
}

/// The pairs of the points that seats hold, two by two.
fn pairs_of(alloc: Global, held: &[u16]) -> Result<Vec<Pair>, Memory>
    ensures { IfOk result (λ pairs. pairs.items ≡ seat_pairs held.now) }
{
    let mut pairs = Vec::with_capacity(alloc, held.len() / 2)?;
    for place in 0..held.len() / 2 {
        pairs.push(ordered(held[2 * place], held[2 * place + 1]))?;
    }
    Ok(pairs)
}

/// How many free points the line has.
fn count_free(line: &Line, free: &PointSet) -> usize
    requires { All (λ v. v < MAX_MEMBERS) line.now }
    ensures { result ≡ length (filter (set.contains free.now) line.now) }
{
    line.as_slice().iter().filter(|v| free.has(**v)).count()
}

/// Wanted lines that hold too few free points, where counting shows it: there are too many lines
/// for the free points, or one line has fewer than two.
pub(crate) fn short_by_count(
    alloc: Global,
    lines: &[Line],
    wanted: &[u32],
    free: &PointSet,
) -> Result<Option<Vec<u32>>, Memory>
    requires can { CanMatch lines.now wanted.now }
    ensures short { IfOk result
        (λ family. IfSome family (λ short. IsShort lines.now wanted.now free.now short.items)) }
    ensures few { IfOk result (λ family. family ≡ None → length wanted.now ≤ 512) }
{
    let most = free.len() as usize / 2;
    if wanted.len() > most {
        return Ok(Some(wanted[..most + 1].to_vec(alloc)?));
    }
    for j in wanted {
        if count_free(&lines[*j as usize], free) < 2 {
            return Ok(Some(vec![in alloc; *j]?));
        }
    }
    Ok(None)
}

/// A pair of its own for each wanted line, of two free points, or wanted lines that hold too few
/// free points together.
///
/// `wanted` has different numbers of lines, and the lines' points are below 1,024. Two counts of
/// free points come first. Then each wanted line has two seats, and each seat in turn gets a point:
/// a free one of its line, or one that is passed on along an alternating chain (Ford and Fulkerson
/// 1956, Kuhn 1955). Where no chain ends, the lines that were reached hold too few (Hall 1935).
/// Each seat takes at most as many steps as the wanted lines have points, in a list that is kept
/// through the call.
///
/// # Errors
///
/// `Memory` where no memory is found.
pub fn private_pairs(
    alloc: Global,
    lines: &Lines,
    wanted: &[u32],
    free: &PointSet,
) -> Result<Matching, Memory>
    requires can { CanMatch lines.now wanted.now }
    ensures answer { IfOk result (IsMatching lines.now wanted.now free.now) }
    ensures range { IfOk result (λ found. HasPointsBelow (told found)) }
{
    let lines = lines.as_slice();
    if let Some(family) = short_by_count(alloc, lines, wanted, free)? {
        return Ok(Matching::Short(family));
    }
    let mut seats = Seats::new(alloc)?;
    let mut chain = Chain::new(alloc);
    while seats.held.len() < 2 * wanted.len() {
        if let Some(family) = chain.give_next(alloc, lines, wanted, free, &mut seats)? {
            return Ok(Matching::Short(family));
        }
    }
    Ok(Matching::Pairs(pairs_of(alloc, &seats.held)?))
}
