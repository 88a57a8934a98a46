//! The marks of points.
ghost use Rattle.std.specs.Prelude.{◌≡◌, ◌<◌, ◌++◌, OnOk, string_bytes};
ghost use Rattle.pg_base.specs.declared.limits.TheConstants.{MAX_MEMBERS};
ghost use Rattle.pg_characters.specs.Marks.{colour_of, is_last, letter_of, mark_of, mark_text};
ghost use Rattle.pg_characters.specs.Marks.{marked, painted, tint, untint};

use crate::shown::Shown;
use pg_base::{MAX_MEMBERS, Side};
use pg_game::Position;
use std::alloc::AllocError;
use std::fmt::Write;

/// The letter that marks the points of a side.
pub fn letter_of(side: Side) -> &'static str
    ensures { result.now ≡ letter_of side }
{
    match side {
        Side::X => "X",
        Side::Y => "O",
    }
}

/// The bytes that begin the colour of a side on a terminal.
fn colour_of(side: Side) -> &'static str
    ensures { result.now ≡ colour_of side }
{
    match side {
        Side::X => "\x1b[31m",
        Side::Y => "\x1b[34m",
    }
}

/// Adds the bytes that begin the colour of a side, if marks are coloured.
pub(crate) fn put_tint(out: &mut String, colour: bool, side: Side) -> Result<(), AllocError>
    ensures { OnOk result (string_bytes out.new ≡ string_bytes out.old ++ tint colour side) }
{
    if colour {
        out.push_str(colour_of(side))?;
    }
    Ok(())
}

/// Adds the bytes that end a colour, if marks are coloured.
pub(crate) fn put_untint(out: &mut String, colour: bool) -> Result<(), AllocError>
    ensures { OnOk result (string_bytes out.new ≡ string_bytes out.old ++ untint colour) }
{
    if colour {
        out.push_str("\x1b[0m")?;
    }
    Ok(())
}

/// Adds the letter of a side, in its colour if marks are coloured.
pub(crate) fn put_letter(out: &mut String, colour: bool, side: Side) -> Result<(), AllocError>
    ensures { OnOk result (string_bytes out.new ≡ string_bytes out.old ++ painted colour side) }
{
    if colour {
        out.push_str(colour_of(side))?;
        out.push_str(letter_of(side))?;
        out.push_str("\x1b[0m")
    } else {
        out.push_str(letter_of(side))
    }
}

/// Whether the point is the one that was claimed last.
pub(crate) fn is_last(last: Option<u16>, point: u16) -> bool
    ensures { result ≡ is_last last point }
{
    match last {
        Some(other) => other == point,
        None => false,
    }
}

/// The side that has the point.
pub(crate) fn mark_of(position: &Position, point: u16) -> Option<Side>
    requires { point < MAX_MEMBERS }
    ensures { result ≡ mark_of position.now point }
{
    if position.x.has(point) {
        Some(Side::X)
    } else if position.y.has(point) {
        Some(Side::Y)
    } else {
        None
    }
}

/// Adds the mark of a point of a side: in brackets if the point was claimed last.
fn put_mark(out: &mut String, shown: &Shown, point: u16, side: Side) -> Result<(), AllocError>
    ensures { OnOk result (string_bytes out.new
        ≡ string_bytes out.old ++ mark_text shown.now point side) }
{
    let (before, after) = if is_last(shown.last, point) {
        ("[", "]")
    } else {
        (" ", " ")
    };
    out.push_str(before)?;
    put_letter(out, shown.look.colour, side)?;
    out.push_str(after)
}

/// Adds the mark of a point, or this text if the point is free.
pub(crate) fn put_marked(
    out: &mut String,
    shown: &Shown,
    point: u16,
    free: &str,
) -> Result<(), AllocError>
    requires { point < MAX_MEMBERS }
    ensures { OnOk result (string_bytes out.new
        ≡ string_bytes out.old ++ marked shown.now point free.now) }
{
    match mark_of(&shown.position, point) {
        Some(side) => put_mark(out, shown, point, side),
        None => out.push_str(free),
    }
}
