//! Tests whether a leaf's reason serves at a better position.

use pg_patterns::{Arena, SmallSet, Spot};

/// Tests whether the game is over at the position.
pub(crate) fn is_over(arena: &Arena, spot: &Spot) -> bool {
    let mut is_touched = true;
    for line in &arena.lines {
        if line.is_subset(spot.x) {
            return true;
        }
        is_touched = is_touched && !line.shares_none(spot.y);
    }
    is_touched || arena.free(spot).is_empty()
}

/// Tests whether a line is within the points.
fn has_filled(arena: &Arena, mine: SmallSet) -> bool {
    for line in &arena.lines {
        if line.is_subset(mine) {
            return true;
        }
    }
    false
}

/// Tests whether some line lacks only the reply.
fn lacks_just(arena: &Arena, mine: SmallSet, reply: u8) -> bool {
    let lacking = SmallSet::empty().with(reply);
    for line in &arena.lines {
        if line.without(mine) == lacking {
            return true;
        }
    }
    false
}

/// Tests whether the points, attacks and replies in turn, are a threat line for Maker at the
/// position: they are free, the last attack fills a line, and each other one fills none and forces
/// its reply.
pub(crate) fn is_threat(arena: &Arena, spot: &Spot, points: &[u8]) -> bool {
    let free = arena.free(spot);
    let mut mine = spot.x;
    for i in 0..points.len() {
        if !free.has(points[i]) {
            return false;
        }
        if i % 2 == 0 {
            mine = mine.with(points[i]);
            if let Some(reply) = points.get(i + 1) {
                if has_filled(arena, mine) || !lacks_just(arena, mine, *reply) {
                    return false;
                }
            }
        }
    }
    has_filled(arena, mine)
}
