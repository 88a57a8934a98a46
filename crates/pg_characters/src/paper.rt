//! Bridg-It as it is drawn on paper: X's dots and O's dots in rows between each other, and strokes
//! between the dots that are joined.
ghost use Rattle.std.specs.Prelude.{◌≡◌, ◌<◌, ◌≤◌, ◌+◌, ◌*◌, ◌++◌, OnOk, string_bytes};
ghost use Rattle.pg_base.specs.declared.limits.TheConstants.{MAX_MEMBERS};
ghost use Rattle.pg_gen.specs.declared.limits.TheConstants.{MAX_BRIDGE_ROWS};
ghost use Rattle.pg_characters.specs.Paper.{dash, dot_letter, dot_text, edge_text, is_across};
ghost use Rattle.pg_characters.specs.Paper.{is_across_at, leads, spot_text, stroke_of, stroke_text};
ghost use Rattle.pg_characters.specs.Spots.{HasEdgeBelow};

use crate::marks::{is_last, mark_of, put_tint, put_untint};
use crate::names::put_padded;
use crate::shown::Shown;
use crate::spots::{Spot, spot_at};
use pg_base::Side;
use pg_game::Position;
use std::alloc::AllocError;

/// The letter of a dot.
fn dot_letter(side: Side) -> &'static str
    ensures { result.now ≡ dot_letter side }
{
    match side {
        Side::X => "x",
        Side::Y => "o",
    }
}

/// What is printed beside a dot: a stroke to the next place if the two are joined.
fn dash(is_joined: bool) -> &'static str
    ensures { result.now ≡ dash is_joined }
{
    if is_joined { "-" } else { " " }
}

/// The stroke of an edge that a side has: across or down, and in brackets if it was claimed last.
fn stroke_of(is_last: bool, is_across: bool) -> &'static str
    ensures { result.now ≡ stroke_of is_last is_across }
{
    match (is_last, is_across) {
        (true, true) => "[-]",
        (true, false) => "[|]",
        (false, true) => "---",
        (false, false) => " | ",
    }
}

/// Whether the stroke of the side that has the edge leads across, if one has it.
fn leads(across: Side, owner: Option<Side>) -> bool
    ensures { result ≡ leads across owner }
{
    match owner {
        Some(side) => side.is_same(across),
        None => false,
    }
}

/// Whether a stroke leads across a place.
fn is_across(position: &Position, spot: Spot) -> bool
    requires { HasEdgeBelow MAX_MEMBERS spot }
    ensures { result ≡ is_across position.now spot }
{
    match spot {
        Spot::Blank => false,
        Spot::Dot(_) => false,
        Spot::Border(side) => side.is_same(Side::Y),
        Spot::Edge { number, across } => leads(across, mark_of(position, number)),
    }
}

/// Whether a stroke leads across the place in this row and column.
fn is_across_at(rows: u16, position: &Position, row: u16, column: u16) -> bool
    requires some { 1 ≤ rows }
    requires few { rows ≤ MAX_BRIDGE_ROWS }
    requires row { row ≤ 2 * rows }
    requires column { column ≤ 2 * rows + 1 }
    ensures { result ≡ is_across_at rows position.now row column }
{
    column <= 2 * rows && is_across(position, spot_at(rows, row, column))
}

/// Adds a dot, with the strokes to the places at its left and at its right.
fn put_dot(
    out: &mut String,
    shown: &Shown,
    side: Side,
    left: bool,
    right: bool,
) -> Result<(), AllocError>
    ensures { OnOk result (string_bytes out.new
        ≡ string_bytes out.old ++ dot_text shown.now side left right) }
{
    put_tint(out, shown.look.colour, side)?;
    out.push_str(dash(left))?;
    out.push_str(dot_letter(side))?;
    out.push_str(dash(right))?;
    put_untint(out, shown.look.colour)
}

/// Adds a stroke of a side.
fn put_stroke(
    out: &mut String,
    shown: &Shown,
    side: Side,
    is_last: bool,
    is_across: bool,
) -> Result<(), AllocError>
    ensures { OnOk result (string_bytes out.new
        ≡ string_bytes out.old ++ stroke_text shown.now side is_last is_across) }
{
    put_tint(out, shown.look.colour, side)?;
    out.push_str(stroke_of(is_last, is_across))?;
    put_untint(out, shown.look.colour)
}

/// Adds an edge: its number if it is free, else the stroke of the side that has it.
fn put_edge(out: &mut String, shown: &Shown, number: u16, across: Side) -> Result<(), AllocError>
    requires { number < MAX_MEMBERS }
    ensures { OnOk result (string_bytes out.new
        ≡ string_bytes out.old ++ edge_text shown.now number across) }
{
    match mark_of(&shown.position, number) {
        Some(side) => {
            let is_last = is_last(shown.last, number);
            put_stroke(out, shown, side, is_last, side.is_same(across))
        }
        None => put_padded(out, number),
    }
}

/// Adds what is at a place of the board of `rows` rows.
pub(crate) fn put_spot(
    out: &mut String,
    rows: u16,
    shown: &Shown,
    row: u16,
    column: u16,
) -> Result<(), AllocError>
    requires some { 1 ≤ rows }
    requires few { rows ≤ MAX_BRIDGE_ROWS }
    requires row { row ≤ 2 * rows }
    requires column { column ≤ 2 * rows }
    ensures { OnOk result (string_bytes out.new
        ≡ string_bytes out.old ++ spot_text rows shown.now row column) }
{
    match spot_at(rows, row, column) {
        Spot::Blank => out.push_str("   "),
        Spot::Dot(side) => {
            let left = is_across_at(rows, &shown.position, row, column.saturating_sub(1));
            let right = is_across_at(rows, &shown.position, row, column + 1);
            put_dot(out, shown, side, left, right)
        }
        Spot::Border(side) => put_stroke(out, shown, side, false, side.is_same(Side::Y)),
        Spot::Edge { number, across } => put_edge(out, shown, number, across),
    }
}
