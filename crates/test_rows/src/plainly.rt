//! Whether pairs are private, and whether lines are short of free points, by plain counting.
use pg_base::{Line, MAX_MEMBERS, Pair, PointSet};

/// Takes a point of the line out of the set; false where the line doesn't hold it or the set hasn't
/// got it.
fn takes(left: &mut PointSet, line: &Line, v: u16) -> bool {
    if v >= MAX_MEMBERS || !left.has(v) || !line.has(v) {
        return false;
    }
    left.take(v);
    true
}

/// Whether each wanted line has the pair at its place, lower point first, of two free points that
/// no earlier pair has.
pub(crate) fn are_private(lines: &[Line], wanted: &[u32], free: &PointSet, pairs: &[Pair]) -> bool {
    let mut left = *free;
    for (j, s) in wanted.iter().zip(pairs) {
        let Some(line) = lines.get(*j as usize) else {
            return false;
        };
        if s.a >= s.b || !takes(&mut left, line, s.a) || !takes(&mut left, line, s.b) {
            return false;
        }
    }
    wanted.len() == pairs.len()
}

/// Whether the numbers are different, below the limit of a set, and all wanted.
fn are_wanted(numbers: &[u32], wanted: &[u32]) -> bool {
    let mut met = PointSet::empty();
    for j in numbers {
        if *j >= u32::from(MAX_MEMBERS) || met.has(*j as u16) || !wanted.contains(j) {
            return false;
        }
        met.put(*j as u16);
    }
    true
}

/// Whether some line of the family holds the point.
fn covers(lines: &[Line], family: &[u32], v: u16) -> bool {
    for j in family {
        if let Some(line) = lines.get(*j as usize) {
            if line.has(v) {
                return true;
            }
        }
    }
    false
}

/// Whether the family is of different wanted lines, which hold fewer than two free points for each
/// of them together.
pub(crate) fn is_short(lines: &[Line], wanted: &[u32], free: &PointSet, family: &[u32]) -> bool {
    let mut covered = 0u32;
    for v in 0..MAX_MEMBERS {
        if free.has(v) && covers(lines, family, v) {
            covered = covered.saturating_add(1);
        }
    }
    are_wanted(family, wanted) && covered as usize / 2 < family.len()
}
