//! Points that meet lines.

use pg_base::Memory;
use pg_patterns::SmallSet;
use std::alloc::Global;

/// Returns how many of the lines have the point.
fn count_with(lines: &[SmallSet], v: u8) -> u32 {
    let mut count: u32 = 0;
    for line in lines {
        if line.has(v) {
            count = count.saturating_add(1);
        }
    }
    count
}

/// Returns the point of the set that is on the most lines, if one is on a line.
fn most_met(lines: &[SmallSet], points: SmallSet) -> Option<u8> {
    let mut best = None;
    let mut most = 0;
    for v in points.members() {
        let count = count_with(lines, v);
        if count > most {
            most = count;
            best = Some(v);
        }
    }
    best
}

/// Returns the lines without a point of the set.
fn missed(alloc: Global, lines: &[SmallSet], points: SmallSet) -> Result<Vec<SmallSet>, Memory> {
    let mut missed = Vec::new(alloc);
    for line in lines {
        if line.shares_none(points) {
            missed.push(*line)?;
        }
    }
    Ok(missed)
}

/// Returns the points of the set that are alone on one of the lines.
fn alone_on(lines: &[SmallSet], points: SmallSet) -> SmallSet {
    let mut alone = SmallSet::empty();
    for line in lines {
        let common = line.common(points);
        if common.len() == 1 {
            alone = alone.union(common);
        }
    }
    alone
}

/// Returns a few points of the set that meet all lines that the set meets: those that are alone on
/// a line, and then again and again the one on the most lines that are left.
pub(crate) fn hitting(
    alloc: Global,
    lines: &[SmallSet],
    points: SmallSet,
) -> Result<SmallSet, Memory> {
    let mut chosen = alone_on(lines, points);
    let mut left = missed(alloc, lines, chosen)?;
    for _choice in 0..256u32 {
        let Some(v) = most_met(left.as_slice(), points) else {
            break;
        };
        chosen = chosen.with(v);
        left = missed(alloc, left.as_slice(), chosen)?;
    }
    Ok(chosen)
}
