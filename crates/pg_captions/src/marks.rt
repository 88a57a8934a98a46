//! Which marks of sides, and which of two sets, are seen, and how they look.
ghost use Rattle.std.specs.Prelude.{◌≡◌, ◌++◌, true, OnOk};
ghost use Rattle.pg_captions.specs.Marks.{are_marked, has_below, marks_by, marks_lines, said_if};
ghost use Rattle.pg_captions.specs.Marks.{seen_lines, seen_sets};

use crate::text::Text;
use crate::words::put_line;
use pg_base::{Memory, PointSet, Side};
use pg_game::Position;
use std::alloc::Global;

/// What is seen of two sets of edges or vectors.
#[derive(Clone, Copy, Debug)]
pub(crate) struct Seen {
    /// Whether the first set has a further member, apart from edges and vectors of the game.
    pub(crate) further: bool,
    /// Whether the first set has others.
    pub(crate) first: bool,
    /// Whether the second set has members.
    pub(crate) second: bool,
}

/// Adds the line, if the test holds.
pub(crate) fn put_if(
    alloc: Global,
    lines: &mut Vec<Text>,
    said: bool,
    words: &str,
) -> Result<(), Memory>
    ensures { OnOk result (lines.new.items ≡ lines.old.items ++ said_if said words.now) }
{
    if said {
        put_line(alloc, lines, words)?;
    }
    Ok(())
}

/// Whether a point below n is in the set.
fn has_below(set: &PointSet, n: u16) -> bool
    ensures { result ≡ has_below set.now n }
{
    match set.first_from(0) {
        Some(v) => v < n,
        None => false,
    }
}

/// Whether points below n of a side are seen.
fn are_marked(p: &Position, n: u16, side: Side) -> bool
    ensures { result ≡ are_marked p.now n side }
{
    match side {
        Side::X => has_below(&p.x, n),
        Side::Y => has_below(&p.y.without(&p.x), n),
    }
}

/// Adds how the points of both sides look.
fn put_both(alloc: Global, lines: &mut Vec<Text>, x: &str, y: &str) -> Result<(), Memory>
    ensures { OnOk result
        (lines.new.items ≡ lines.old.items ++ marks_by x.now y.now true true) }
{
    lines.push(Text::from_string(format!(in alloc; "{x}; {y}")?))?;
    Ok(())
}

/// Adds how the points of the two sides look, if they are seen.
pub(crate) fn put_marks(
    alloc: Global,
    lines: &mut Vec<Text>,
    x: &str,
    y: &str,
    p: &Position,
    n: u16,
) -> Result<(), Memory>
    ensures { OnOk result
        (lines.new.items ≡ lines.old.items ++ marks_lines x.now y.now p.now n) }
{
    match (are_marked(p, n, Side::X), are_marked(p, n, Side::Y)) {
        (true, true) => put_both(alloc, lines, x, y),
        (true, false) => put_line(alloc, lines, x),
        (false, true) => put_line(alloc, lines, y),
        (false, false) => Ok(()),
    }
}

/// What is seen of two sets whose numbers are below n.
pub(crate) fn seen_sets(further: bool, n: u16, first: &PointSet, second: &PointSet) -> Seen
    ensures { result ≡ seen_sets further n first.now second.now }
{
    Seen {
        further,
        first: has_below(first, n),
        second: has_below(second, n),
    }
}

/// Adds how two sets look, if they are seen.
pub(crate) fn put_seen(
    alloc: Global,
    lines: &mut Vec<Text>,
    seen: Seen,
    first: &str,
    second: &str,
) -> Result<(), Memory>
    ensures { OnOk result
        (lines.new.items ≡ lines.old.items ++ seen_lines seen first.now second.now) }
{
    put_if(alloc, lines, seen.further || seen.first, first)?;
    put_if(alloc, lines, seen.second, second)?;
    Ok(())
}
