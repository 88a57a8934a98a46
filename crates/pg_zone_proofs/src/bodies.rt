//! Bodies of nodes that one criterion shows.
ghost use Rattle.std.specs.Prelude.{◌≡◌, ◌<◌, ◌%◌, IfOk, IfSome, length};
ghost use Rattle.pg_zone_proofs.specs.Prelude.{All, IsBody, IsPair, MAX_MEMBERS};

use crate::standing::is_threat;
use pg_base::{Memory, Pair, Pairs, Points};
use pg_cert::Body;
use pg_patterns::{Arena, Image, Maps, Pattern, Reason, SmallPair, Spot};
use std::alloc::Global;

/// Returns the images of the pairs under a map, without those that have a taken point.
fn free_pairs(
    alloc: Global,
    arena: &Arena,
    map: u8,
    spot: &Spot,
    pairs: &[SmallPair],
) -> Result<Vec<Pair>, Memory>
    ensures { IfOk result (λ r. All IsPair r.items) }
{
    let free = arena.free(spot);
    let mut kept = Vec::new(alloc);
    for pair in pairs {
        let (a, b) = (arena.maps.image(map, pair.a), arena.maps.image(map, pair.b));
        if free.has(a) && free.has(b) {
            kept.push(Pair {
                a: u16::from(a),
                b: u16::from(b),
            })?;
        }
    }
    Ok(kept)
}

/// Returns the images of the points under a map.
fn images(alloc: Global, maps: &Maps, map: u8, points: &[u8]) -> Result<Vec<u8>, Memory>
    ensures { IfOk result (λ r. length r.items ≡ length points.now) }
{
    let mut taken = Vec::new(alloc);
    for v in points {
        taken.push(maps.image(map, *v))?;
    }
    Ok(taken)
}

/// Returns the same points as numbers of 16 bits.
fn widened(alloc: Global, points: &[u8]) -> Result<Vec<u16>, Memory>
    ensures range { IfOk result (λ r. All (λ p. p < MAX_MEMBERS) r.items) }
    ensures count { IfOk result (λ r. length r.items ≡ length points.now) }
{
    let mut wide = Vec::new(alloc);
    for v in points {
        wide.push(u16::from(*v))?;
    }
    Ok(wide)
}

/// Returns the body of the free pairs, and None if there are none.
fn pairs_body(
    alloc: Global,
    arena: &Arena,
    map: u8,
    spot: &Spot,
    pairs: &[SmallPair],
) -> Result<Option<Body>, Memory>
    ensures { IfOk result (λ r. IfSome r IsBody) }
{
    let kept = free_pairs(alloc, arena, map, spot, pairs)?;
    if kept.is_empty() {
        return Ok(None);
    }
    Ok(Some(Body::Pairs(Pairs::from_vec(kept))))
}

/// Returns the body of a threat line, and None if it isn't one at the position.
fn threat_body(
    alloc: Global,
    arena: &Arena,
    map: u8,
    spot: &Spot,
    points: &[u8],
) -> Result<Option<Body>, Memory>
    ensures { IfOk result (λ r. IfSome r IsBody) }
{
    let taken = images(alloc, &arena.maps, map, points)?;
    if taken.len() % 2 != 1 || !is_threat(arena, spot, taken.as_slice()) {
        return Ok(None);
    }
    let wide = widened(alloc, taken.as_slice())?;
    Ok(Some(Body::Threat(Points::from_vec(wide))))
}

/// Returns the body by which a leaf shows that the claimer wins at `spot`, which is no worse than
/// the position of the image. None comes for patterns that rest on others, and if the leaf shows
/// nothing at `spot`.
pub(crate) fn leaf_body(
    alloc: Global,
    arena: &Arena,
    pattern: &Pattern,
    image: Image,
    spot: &Spot,
) -> Result<Option<Body>, Memory>
    ensures { IfOk result (λ r. IfSome r IsBody) }
{
    match &pattern.reason {
        Reason::Over => Ok(Some(Body::Over)),
        Reason::Potential => Ok(Some(Body::Potential)),
        Reason::Pairs(pairs) => pairs_body(alloc, arena, image.map, spot, pairs.as_slice()),
        Reason::Threat(points) => threat_body(alloc, arena, image.map, spot, points.as_slice()),
        Reason::Move { .. } | Reason::All(_) => Ok(None),
    }
}
