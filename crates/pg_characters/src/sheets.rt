//! Boards whose points have places in rows and columns.
ghost use Rattle.std.specs.Prelude.{◌≡◌, ◌<◌, ◌≤◌, ◌+◌, ◌++◌, OnOk, string_bytes};
ghost use Rattle.pg_game.specs.declared.bounds.TheConstants.{MAX_POINTS};
ghost use Rattle.pg_characters.specs.Sheets.{IsSheet, heading_text, height_of, label_text};
ghost use Rattle.pg_characters.specs.Sheets.{label_width, many_columns, part_at, part_text};
ghost use Rattle.pg_characters.specs.Sheets.{place_text, row_text, rows_text, sheet_text};
ghost use Rattle.pg_characters.specs.Sheets.{title_text, titles_text, width_of};

use crate::marks::put_marked;
use crate::names::{LETTERS, put_column, put_padded};
use crate::paper::put_spot;
use crate::shown::Shown;
use std::alloc::AllocError;

/// How many characters stand before the cells of a row.
pub const LABEL_WIDTH: u16 = 4;

/// How many characters a place takes in a row.
pub const PLACE_WIDTH: u16 = 3;

/// What is printed before a part that continues the rows of the one before.
pub const NEXT_PART: &str = "to the right of that:\n";

/// A board whose points have places in rows and columns.
#[derive(Clone, Copy, Debug, PartialEq, Eq)]
pub enum Sheet {
    /// A board of cells: rows with numbers and columns with letters.
    Cells {
        /// How many columns there are.
        width: u16,
        /// How many rows there are.
        height: u16,
    },
    /// Bridg-It as it is drawn on paper.
    Paper {
        /// How many rows of X's dots there are.
        rows: u16,
    },
}

/// Columns that are shown beside each other.
#[derive(Clone, Copy, Debug, PartialEq, Eq)]
pub(crate) struct Part {
    /// The number of the first column.
    pub(crate) first: u16,
    /// How many columns there are.
    pub(crate) count: u16,
}

/// How many columns a sheet has.
fn width_of(sheet: Sheet) -> u16
    requires { IsSheet sheet }
    ensures number { result ≡ width_of sheet }
    ensures few { result ≤ MAX_POINTS }
{
    match sheet {
        Sheet::Cells { width, .. } => width,
        Sheet::Paper { rows } => 2 * rows + 1,
    }
}

/// How many rows a sheet has.
fn height_of(sheet: Sheet) -> u16
    requires { IsSheet sheet }
    ensures number { result ≡ height_of sheet }
    ensures few { result ≤ MAX_POINTS }
{
    match sheet {
        Sheet::Cells { height, .. } => height,
        Sheet::Paper { rows } => 2 * rows + 1,
    }
}

/// How many characters stand before the places of a row.
fn label_width(sheet: Sheet) -> u16
    ensures { result ≡ label_width sheet }
{
    match sheet {
        Sheet::Cells { .. } => LABEL_WIDTH,
        Sheet::Paper { .. } => 0,
    }
}

/// Adds what stands before the places of a row.
fn put_label(out: &mut String, sheet: Sheet, row: u16) -> Result<(), AllocError>
    requires { row < MAX_POINTS }
    ensures { OnOk result (string_bytes out.new ≡ string_bytes out.old ++ label_text sheet row) }
{
    match sheet {
        Sheet::Cells { .. } => {
            put_padded(out, row + 1)?;
            out.push_str(" ")
        }
        Sheet::Paper { .. } => Ok(()),
    }
}

/// Adds what is at a place.
fn put_place(
    out: &mut String,
    sheet: Sheet,
    shown: &Shown,
    row: u16,
    column: u16,
) -> Result<(), AllocError>
    requires sheet { IsSheet sheet }
    requires row { row < height_of sheet }
    requires column { column < width_of sheet }
    ensures { OnOk result (string_bytes out.new
        ≡ string_bytes out.old ++ place_text sheet shown.now row column) }
{
    match sheet {
        Sheet::Cells { width, .. } => put_marked(out, shown, row * width + column, " . "),
        Sheet::Paper { rows } => put_spot(out, rows, shown, row, column),
    }
}

/// Adds a row of the columns of a part.
#[tactic(auto, unfolding(crate::specs::Sheets::row_text))]
fn put_row(
    out: &mut String,
    sheet: Sheet,
    shown: &Shown,
    part: Part,
    row: u16,
) -> Result<(), AllocError>
    requires sheet { IsSheet sheet }
    requires row { row < height_of sheet }
    requires low { row < MAX_POINTS }
    requires within { part.first + part.count ≤ width_of sheet }
    ensures { OnOk result (string_bytes out.new
        ≡ string_bytes out.old ++ row_text sheet shown.now part row) }
{
    put_label(out, sheet, row)?;
    for i in 0..part.count {
        put_place(out, sheet, shown, row, part.first + i)?;
    }
    out.push_str("\n")
}

/// Adds the title of a column, three characters wide.
fn put_title(out: &mut String, column: u16) -> Result<(), AllocError>
    requires { column < MAX_POINTS }
    ensures { OnOk result (string_bytes out.new ≡ string_bytes out.old ++ title_text column) }
{
    if column < LETTERS {
        out.push_str(" ")?;
    }
    put_column(out, column)?;
    out.push_str(" ")
}

/// Adds the titles of the columns of a part.
#[tactic(auto, unfolding(crate::specs::Sheets::titles_text))]
fn put_titles(out: &mut String, part: Part) -> Result<(), AllocError>
    requires { part.first + part.count ≤ MAX_POINTS }
    ensures { OnOk result (string_bytes out.new ≡ string_bytes out.old ++ titles_text part) }
{
    out.push_str("    ")?;
    for i in 0..part.count {
        put_title(out, part.first + i)?;
    }
    out.push_str("\n")
}

/// Adds what stands above a part.
fn put_heading(out: &mut String, sheet: Sheet, part: Part) -> Result<(), AllocError>
    requires sheet { IsSheet sheet }
    requires within { part.first + part.count ≤ MAX_POINTS }
    ensures { OnOk result (string_bytes out.new
        ≡ string_bytes out.old ++ heading_text sheet part) }
{
    match sheet {
        Sheet::Cells { .. } => put_titles(out, part),
        Sheet::Paper { .. } => {
            if part.first == 0 {
                Ok(())
            } else {
                out.push_str(NEXT_PART)
            }
        }
    }
}

/// How many columns are shown beside each other.
fn many_columns(sheet: Sheet, columns: u16) -> u16
    ensures many { result ≡ many_columns sheet columns }
    ensures some { 0 < result }
{
    (columns.saturating_sub(label_width(sheet)) / PLACE_WIDTH).max(1)
}

/// The part that begins at a column.
fn part_at(sheet: Sheet, columns: u16, first: u16) -> Part
    requires sheet { IsSheet sheet }
    requires first { first < width_of sheet }
    ensures part { result ≡ part_at sheet columns first }
    ensures within { result.first + result.count ≤ width_of sheet }
{
    Part {
        first,
        count: many_columns(sheet, columns).min(width_of(sheet) - first),
    }
}

/// Adds all rows of a part.
#[tactic(auto, unfolding(crate::specs::Sheets::rows_text))]
fn put_rows(out: &mut String, sheet: Sheet, shown: &Shown, part: Part) -> Result<(), AllocError>
    requires sheet { IsSheet sheet }
    requires within { part.first + part.count ≤ width_of sheet }
    ensures { OnOk result (string_bytes out.new
        ≡ string_bytes out.old ++ rows_text sheet shown.now part) }
{
    for row in 0..height_of(sheet) {
        put_row(out, sheet, shown, part, row)?;
    }
    Ok(())
}

/// Adds the part that begins at a column, if one does.
#[tactic(auto, unfolding(crate::specs::Sheets::part_text))]
fn put_part(out: &mut String, sheet: Sheet, shown: &Shown, first: u16) -> Result<(), AllocError>
    requires sheet { IsSheet sheet }
    requires first { first < width_of sheet }
    requires small { width_of sheet ≤ MAX_POINTS }
    ensures { OnOk result (string_bytes out.new
        ≡ string_bytes out.old ++ part_text sheet shown.now first) }
{
    let columns = shown.look.columns;
    if first % many_columns(sheet, columns) != 0 {
        return Ok(());
    }
    let part = part_at(sheet, columns, first);
    put_heading(out, sheet, part)?;
    put_rows(out, sheet, shown, part)
}

/// Adds all places of a sheet, in parts if it is wider than the terminal.
#[tactic(auto, unfolding(crate::specs::Sheets::sheet_text))]
pub fn put_sheet(out: &mut String, sheet: Sheet, shown: &Shown) -> Result<(), AllocError>
    requires sheet { IsSheet sheet }
    ensures { OnOk result (string_bytes out.new
        ≡ string_bytes out.old ++ sheet_text sheet shown.now) }
{
    for first in 0..width_of(sheet) {
        put_part(out, sheet, shown, first)?;
    }
    Ok(())
}
