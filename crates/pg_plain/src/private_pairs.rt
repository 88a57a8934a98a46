//! Private pairs of points for lines, by trying all pairs of one line after the other.
ghost use Rattle.std.specs.Prelude.{◌≡◌, ◌<◌, filter};
ghost use Rattle.pg_plain.specs.Prelude.{All, list_any, contains, minus};
ghost use Rattle.pg_plain.specs.PairSearch.{have_pairs, is_pair, is_lesser};

use pg_base::{Line, MAX_MEMBERS, PointSet};

/// Whether each of the lines without a point of `own` can have two of the free points of its own,
/// all different.
///
/// The time grows with the number of all ways to choose the pairs.
#[cycle(line_after_line)]
pub fn have_private_pairs(lines: &[Line], own: &PointSet, free: &PointSet) -> bool
    requires { All (All (λ v. v < MAX_MEMBERS)) lines.now }
    ensures { result ≡ have_pairs own.now lines.now (contains free.now) }
{
    match lines {
        [] => true,
        [line, others @ ..] => {
            if own.meets(line.as_slice()) {
                have_private_pairs(others, own, free)
            } else {
                has_pair(line.as_slice(), others, own, free)
            }
        }
    }
}

/// Whether the line can have a pair of free points, so that the other lines have pairs of what is
/// left.
#[cycle(line_after_line)]
fn has_pair(line: &[u16], others: &[Line], own: &PointSet, free: &PointSet) -> bool
    requires line { All (λ v. v < MAX_MEMBERS) line.now }
    requires others { All (All (λ v. v < MAX_MEMBERS)) others.now }
    ensures { result ≡ list_any (is_lesser own.now others.now (contains free.now) line.now)
        (filter (contains free.now) line.now) }
{
    for a in line {
        if free.has(*a) && has_greater(*a, line, others, own, free) {
            return true;
        }
    }
    false
}

/// Whether the line can have such a pair with this lesser point.
#[cycle(line_after_line)]
fn has_greater(a: u16, line: &[u16], others: &[Line], own: &PointSet, free: &PointSet) -> bool
    requires small { a < MAX_MEMBERS }
    requires line { All (λ v. v < MAX_MEMBERS) line.now }
    requires others { All (All (λ v. v < MAX_MEMBERS)) others.now }
    ensures { result ≡ list_any (is_pair own.now others.now (contains free.now) a)
        (filter (contains free.now) line.now) }
{
    for b in line {
        if free.has(*b) && is_rest(a, *b, others, own, free) {
            return true;
        }
    }
    false
}

/// Whether b is greater than a, and the other lines have pairs of what these two leave.
#[cycle(line_after_line)]
fn is_rest(a: u16, b: u16, others: &[Line], own: &PointSet, free: &PointSet) -> bool
    requires a { a < MAX_MEMBERS }
    requires b { b < MAX_MEMBERS }
    requires others { All (All (λ v. v < MAX_MEMBERS)) others.now }
    ensures { result ≡ is_pair own.now others.now (contains free.now) a b }
{
    a < b && have_private_pairs(others, own, &left_by(free, a, b))
}

/// The set without the two points.
fn left_by(free: &PointSet, a: u16, b: u16) -> PointSet
    requires a { a < MAX_MEMBERS }
    requires b { b < MAX_MEMBERS }
    ensures { contains result ≡ minus (minus (contains free.now) a) b }
{
    let mut left = *free;
    left.take(a);
    left.take(b);
    left
}
