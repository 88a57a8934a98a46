//! The lines that must hold both points of a pair.
ghost use Rattle.std.specs.Prelude.{◌≡◌, ◌<◌, nat_lt, not, IfOk, length, map};
ghost use Rattle.pg_shared.specs.Prelude.{All, Contains, filter, is_touched, list_any, lines_of};
ghost use Rattle.pg_shared.specs.Lines.{free_of, is_smaller, points_in};

use pg_base::{Line, MAX_MEMBERS, Memory, PointSet};
use pg_game::{Game, Position};
use std::alloc::Global;

/// A line that must hold both points of a pair.
#[derive(Clone, Copy, Debug)]
pub(crate) struct OpenLine {
    /// Its free points.
    pub(crate) points: PointSet,
    /// How many of them are in no chosen pair.
    pub(crate) left: u32,
    /// How many pairs were chosen when it came to hold one; 0 while it holds none.
    pub(crate) held_by: usize,
}

/// The free points of the line.
fn free_of(p: &Position, line: &Line) -> PointSet
    requires { All (λ v. v < MAX_MEMBERS) line.now }
    ensures { result ≡ free_of p.now line.now }
{
    PointSet::from_points(line.as_slice())
        .without(&p.x)
        .without(&p.y)
}

/// The line, with no pair chosen.
fn opened(p: &Position, line: &Line) -> OpenLine
    requires { All (λ v. v < MAX_MEMBERS) line.now }
    ensures points { result.points ≡ free_of p.now line.now }
    ensures none { result.held_by ≡ 0 }
{
    let points = free_of(p, line);
    OpenLine {
        points,
        left: points.len(),
        held_by: 0,
    }
}

/// The lines without a point of the set, with no pair chosen.
pub(crate) fn open_lines(
    alloc: Global,
    g: &Game,
    p: &Position,
    own: &PointSet,
) -> Result<Vec<OpenLine>, Memory>
    ensures { IfOk result (λ lines. points_in lines.items
        ≡ map (free_of p.now) (filter (λ line. not (is_touched own.now line)) (lines_of g.now))) }
{
    let mut lines = Vec::new(alloc);
    for line in g.lines() {
        if !own.meets(line.as_slice()) {
            lines.push(opened(p, line))?;
        }
    }
    Ok(lines)
}

/// Whether some line has fewer than two points in no pair.
pub(crate) fn is_hopeless(lines: &[OpenLine]) -> bool
    ensures { result ≡ list_any (λ line. nat_lt line.left 2) lines.now }
{
    lines.iter().any(|line| line.left < 2)
}

/// Whether the one line has fewer points than the other, or as many and comes before it.
fn is_smaller(one: &OpenLine, other: &OpenLine, is_before: bool) -> bool
    ensures { result ≡ is_smaller one.now.left other.now.left is_before }
{
    if one.left == other.left {
        return is_before;
    }
    one.left < other.left
}

/// Whether a smaller line is within the line at the place, so that what holds the one holds the
/// other.
fn is_needless(lines: &[OpenLine], i: usize) -> bool
    requires { i < length lines.now }
{
    let line = lines[i];
    for j in 0..lines.len() {
        if is_smaller(&lines[j], &line, j < i) && lines[j].points.is_subset(&line.points) {
            return true;
        }
    }
    false
}

/// The lines within which no smaller line is. Pairs of which these hold one each serve all.
pub(crate) fn least_lines(alloc: Global, lines: &[OpenLine]) -> Result<Vec<OpenLine>, Memory>
    ensures { IfOk result (λ kept. All (Contains lines.now) kept.items) }
{
    let mut kept = Vec::new(alloc);
    for i in 0..lines.len() {
        if !is_needless(lines, i) {
            kept.push(lines[i])?;
        }
    }
    Ok(kept)
}
