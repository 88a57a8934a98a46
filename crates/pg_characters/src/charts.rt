//! Boards without cells that a layout draws: each point is a text of three characters at its place.
ghost use Rattle.std.specs.Prelude.{◌≡◌, ◌<◌, ◌≤◌, ◌+◌, ◌++◌, IfSome, OnOk, length, string_bytes};
ghost use Rattle.pg_base.specs.declared.limits.TheConstants.{MAX_MEMBERS};
ghost use Rattle.pg_characters.specs.Charts.{cell_text, chart_text, columns_in, digit_of, lines_in};
ghost use Rattle.pg_characters.specs.Charts.{many_places, mark_cell, point_cell, row_text};
ghost use Rattle.pg_characters.specs.Charts.{rows_text, strip_at, strip_text, taken_from, takes};

use crate::marks::{is_last, mark_of, put_letter};
use crate::sheets::NEXT_PART;
use crate::shown::Shown;
use pg_base::{MAX_MEMBERS, Side};
use pg_layout::Spot;
use std::alloc::AllocError;

/// How many characters a point takes.
pub const MARK_WIDTH: u32 = 3;

/// The most columns and lines of a layout.
pub const MAX_PLACES: u32 = 65_536;

/// Points that are shown beside each other: those whose places are in these columns.
#[derive(Clone, Copy, Debug, PartialEq, Eq)]
pub(crate) struct Strip {
    /// The first column.
    pub(crate) first: u32,
    /// How many columns there are.
    pub(crate) count: u32,
}

/// A character of a point.
#[derive(Clone, Copy, Debug, PartialEq, Eq)]
pub(crate) struct Cell {
    /// The point.
    pub(crate) point: u16,
    /// Which of its characters it is, from 0.
    pub(crate) place: u32,
}

/// Returns whether a point at this place takes a character, among the points of a strip.
fn takes(strip: Strip, line: u32, column: u32, spot: &Spot) -> bool
    ensures { result ≡ takes strip line column spot.now }
{
    let first = u32::from(spot.column);
    u32::from(spot.line) == line
        && strip.first <= first
        && first.saturating_sub(strip.first) < strip.count
        && first <= column
        && column.saturating_sub(first) < MARK_WIDTH
}

/// Returns which character of which point of a strip is in a column and a line.
fn taken_at(spots: &[Spot], strip: Strip, line: u32, column: u32) -> Option<Cell>
    requires { length spots.now ≤ MAX_MEMBERS }
    ensures cell { result ≡ taken_from strip line column 0 spots.now }
    ensures few { IfSome result (λ cell. cell.point < MAX_MEMBERS) }
{
    for (i, spot) in spots.iter().enumerate() {
        if takes(strip, line, column, spot) {
            return Some(Cell {
                point: i as u16,
                place: column.saturating_sub(u32::from(spot.column)),
            });
        }
    }
    None
}

/// Returns a character of a free point: of its number, in the middle if it has one digit.
fn digit_of(cell: Cell) -> u8
    requires { cell.point < MAX_MEMBERS }
    ensures digit { result ≡ digit_of cell }
    ensures ascii { result < 128 }
{
    let number = cell.point;
    match cell.place {
        0 => if number < 100 {
            b' '
        } else {
            b'0' + (number / 100) as u8
        },
        1 => if number < 10 {
            b'0' + number as u8
        } else {
            b'0' + (number / 10 % 10) as u8
        },
        _ => if number < 10 {
            b' '
        } else {
            b'0' + (number % 10) as u8
        },
    }
}

/// Adds a character of a point of a side: its mark, in brackets if the point was claimed last.
fn put_mark_cell(out: &mut String, shown: &Shown, cell: Cell, side: Side) -> Result<(), AllocError>
    ensures { OnOk result (string_bytes out.new
        ≡ string_bytes out.old ++ mark_cell shown.now cell side) }
{
    if cell.place == 1 {
        return put_letter(out, shown.look.colour, side);
    }
    if !is_last(shown.last, cell.point) {
        return out.push_str(" ");
    }
    out.push_str(if cell.place == 0 { "[" } else { "]" })
}

/// Adds a character of a point.
fn put_point_cell(out: &mut String, shown: &Shown, cell: Cell) -> Result<(), AllocError>
    requires { cell.point < MAX_MEMBERS }
    ensures { OnOk result (string_bytes out.new
        ≡ string_bytes out.old ++ point_cell shown.now cell) }
{
    match mark_of(&shown.position, cell.point) {
        Some(side) => put_mark_cell(out, shown, cell, side),
        None => out.push(char::from(digit_of(cell))),
    }
}

/// Adds what is in a column and a line.
fn put_cell(
    out: &mut String,
    spots: &[Spot],
    shown: &Shown,
    strip: Strip,
    line: u32,
    column: u32,
) -> Result<(), AllocError>
    requires { length spots.now ≤ MAX_MEMBERS }
    ensures { OnOk result (string_bytes out.new
        ≡ string_bytes out.old ++ cell_text spots.now shown.now strip line column) }
{
    match taken_at(spots, strip, line, column) {
        Some(cell) => put_point_cell(out, shown, cell),
        None => out.push_str(" "),
    }
}

/// Adds a line of a strip.
#[tactic(auto, unfolding(crate::specs::Charts::row_text))]
fn put_row(
    out: &mut String,
    spots: &[Spot],
    shown: &Shown,
    strip: Strip,
    line: u32,
) -> Result<(), AllocError>
    requires few { length spots.now ≤ MAX_MEMBERS }
    requires within { strip.first + strip.count ≤ MAX_PLACES }
    ensures { OnOk result (string_bytes out.new
        ≡ string_bytes out.old ++ row_text spots.now shown.now strip line) }
{
    for i in 0..strip.count + (MARK_WIDTH - 1) {
        put_cell(out, spots, shown, strip, line, strip.first + i)?;
    }
    out.push_str("\n")
}

/// Returns how many lines the places are in, from the top.
fn lines_in(spots: &[Spot]) -> u32
    ensures count { result ≡ lines_in spots.now }
    ensures few { result ≤ MAX_PLACES }
{
    let mut count = 0;
    for spot in spots {
        count = count.max(u32::from(spot.line) + 1);
    }
    count
}

/// Returns how many columns the places are in, from the left.
fn columns_in(spots: &[Spot]) -> u32
    ensures count { result ≡ columns_in spots.now }
    ensures few { result ≤ MAX_PLACES }
{
    let mut count = 0;
    for spot in spots {
        count = count.max(u32::from(spot.column) + 1);
    }
    count
}

/// Adds all lines of a strip.
#[tactic(auto, unfolding(crate::specs::Charts::rows_text))]
fn put_rows(out: &mut String, spots: &[Spot], shown: &Shown, strip: Strip) -> Result<(), AllocError>
    requires few { length spots.now ≤ MAX_MEMBERS }
    requires within { strip.first + strip.count ≤ MAX_PLACES }
    ensures { OnOk result (string_bytes out.new
        ≡ string_bytes out.old ++ rows_text spots.now shown.now strip) }
{
    for line in 0..lines_in(spots) {
        put_row(out, spots, shown, strip, line)?;
    }
    Ok(())
}

/// Returns in how many columns the places of a strip are, on a terminal with `columns` columns.
fn many_places(columns: u16) -> u32
    ensures many { result ≡ many_places columns }
    ensures some { 0 < result }
{
    u32::from(columns).saturating_sub(MARK_WIDTH - 1).max(1)
}

/// Returns the strip that begins at a column, of places in `wide` columns.
fn strip_at(wide: u32, columns: u16, first: u32) -> Strip
    requires first { first < wide }
    requires wide { wide ≤ MAX_PLACES }
    ensures strip { result ≡ strip_at wide columns first }
    ensures within { result.first + result.count ≤ MAX_PLACES }
{
    Strip {
        first,
        count: many_places(columns).min(wide - first),
    }
}

/// Adds the strip that begins at a column, if one does, of places in `wide` columns.
#[tactic(auto, unfolding(crate::specs::Charts::strip_text))]
fn put_strip(
    out: &mut String,
    spots: &[Spot],
    shown: &Shown,
    wide: u32,
    first: u32,
) -> Result<(), AllocError>
    requires few { length spots.now ≤ MAX_MEMBERS }
    requires first { first < wide }
    requires wide { wide ≤ MAX_PLACES }
    ensures { OnOk result (string_bytes out.new
        ≡ string_bytes out.old ++ strip_text spots.now shown.now wide first) }
{
    let columns = shown.look.columns;
    if first % many_places(columns) != 0 {
        return Ok(());
    }
    if first != 0 {
        out.push_str(NEXT_PART)?;
    }
    put_rows(out, spots, shown, strip_at(wide, columns, first))
}

/// Adds a board that a layout draws, in strips if it is wider than the terminal.
#[tactic(auto, unfolding(crate::specs::Charts::chart_text))]
pub fn put_chart(out: &mut String, spots: &[Spot], shown: &Shown) -> Result<(), AllocError>
    requires { length spots.now ≤ MAX_MEMBERS }
    ensures { OnOk result (string_bytes out.new
        ≡ string_bytes out.old ++ chart_text spots.now shown.now) }
{
    let wide = columns_in(spots);
    for first in 0..wide {
        put_strip(out, spots, shown, wide, first)?;
    }
    Ok(())
}
