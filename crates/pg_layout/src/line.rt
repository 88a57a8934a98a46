//! What the lines of a layout say.
ghost use Rattle.std.specs.Prelude.{◌≡◌, map};
ghost use Rattle.pg_layout.specs.Prelude.{Becomes};
ghost use Rattle.pg_layout.specs.LayoutFile.{after, begins_comment, is_crowded, is_placed};
ghost use Rattle.pg_layout.specs.LayoutFile.{said_by, with_line, with_one};
ghost use Rattle.pg_layout.specs.Layouts.{is_near};

use crate::fault::Fault;
use crate::spot::{COLUMNS_APART, LINES_APART, MAX_STEPS, Spot};
use pg_text::{LineError, number, word_list};
use std::alloc::Global;

/// What a line says, before its numbers are looked at.
#[derive(Clone, Copy, Debug, PartialEq, Eq)]
pub(crate) struct Said {
    /// The number of the point.
    pub(crate) point: u32,
    /// How far its place is from the left.
    pub(crate) column: u32,
    /// How far its place is from the top.
    pub(crate) line: u32,
}

/// A point with its place.
#[derive(Clone, Copy, Debug, PartialEq, Eq)]
pub(crate) struct Placed {
    /// The point.
    pub(crate) point: u16,
    /// Its place.
    pub(crate) spot: Spot,
}

/// Returns whether a line is a comment.
fn begins_comment(line: &[u8]) -> bool
    ensures { result ≡ begins_comment line.now }
{
    match line.first() {
        Some(sign) => *sign == b'#',
        None => false,
    }
}

/// Returns what the words of a line say, if they are `at` and three numbers.
fn said_by(words: &[&[u8]]) -> Option<Said>
    ensures { result ≡ said_by (map (λ w. w.now) words.now) }
{
    let [name, first, second, third] = words else {
        return None;
    };
    if *name != b"at".as_slice() {
        return None;
    }
    let point = number(first)?;
    let column = number(second)?;
    let line = number(third)?;
    Some(Said {
        point,
        column,
        line,
    })
}

/// Returns whether two places are too near.
fn is_near(a: Spot, b: Spot) -> bool
    ensures { result ≡ is_near a b }
{
    a.column.abs_diff(b.column) < COLUMNS_APART && a.line.abs_diff(b.line) < LINES_APART
}

/// Returns whether the point has a place.
fn is_placed(placed: &[Placed], point: u32) -> bool
    ensures { result ≡ is_placed placed.now point }
{
    placed.iter().any(|q| u32::from(q.point) == point)
}

/// Returns whether a place is too near that of a point.
fn is_crowded(placed: &[Placed], spot: Spot) -> bool
    ensures { result ≡ is_crowded placed.now spot }
{
    placed.iter().any(|q| is_near(q.spot, spot))
}

/// Adds the point that a line places, of a board with `points` points.
fn add(points: u16, placed: &mut Vec<Placed>, said: Said) -> Result<(), LineError<Fault>>
    ensures { Becomes result placed.new.items (with_one points placed.old.items said) }
{
    if said.point >= u32::from(points) {
        return Err(LineError::Fault(Fault::Point));
    }
    if is_placed(placed, said.point) {
        return Err(LineError::Fault(Fault::Twice));
    }
    if said.column > u32::from(MAX_STEPS) || said.line > u32::from(MAX_STEPS) {
        return Err(LineError::Fault(Fault::Range));
    }
    let spot = Spot {
        column: said.column as u16,
        line: said.line as u16,
    };
    if is_crowded(placed, spot) {
        return Err(LineError::Fault(Fault::Near));
    }
    placed.push(Placed {
        point: said.point as u16,
        spot,
    })?;
    Ok(())
}

/// Reads the words of a line that is no comment.
fn read_words(
    points: u16,
    placed: &mut Vec<Placed>,
    words: &[&[u8]],
) -> Result<(), LineError<Fault>>
    ensures { Becomes result placed.new.items
        (with_line points placed.old.items (map (λ w. w.now) words.now)) }
{
    match said_by(words) {
        Some(said) => add(points, placed, said),
        None => Err(LineError::Fault(Fault::Form)),
    }
}

/// Reads the next line of the layout of a board with `points` points.
#[tactic(auto, unfolding(crate::specs::LayoutFile::after))]
pub(crate) fn read_line(
    alloc: Global,
    points: u16,
    placed: &mut Vec<Placed>,
    line: &[u8],
) -> Result<(), LineError<Fault>>
    ensures { Becomes result placed.new.items (after points placed.old.items line.now) }
{
    if begins_comment(line) {
        return Ok(());
    }
    let words = word_list(alloc, line)?;
    if words.is_empty() {
        return Ok(());
    }
    read_words(points, placed, &words)
}
