//! Sides, points and moves in words.
ghost use Rattle.std.specs.Prelude.{◌≡◌, ◌≤◌, ◌/◌, ◌++◌, IfOk, OnOk, string_bytes, max, slice_get};
ghost use Rattle.pg_book_parts.specs.Words.{act_words, cell_words, edge_words, ends_words};
ghost use Rattle.pg_book_parts.specs.Words.{is_middle, middle_words};
ghost use Rattle.pg_book_parts.specs.Words.{point_words, side_words};

use crate::layout::Layout;
use pg_base::{Kind, Memory, Side};
use pg_captions::side_name;
use pg_picture::Text;
use pg_scene::Board;
use std::alloc::{AllocError, Global};
use std::fmt::Write;

/// The row of a cell, from 0.
fn row_of(width: u32, point: u16) -> u32
    ensures row { result ≡ point / max width 1 }
    ensures small { result ≤ 65535 }
{
    u32::from(point) / width.max(1)
}

/// Whether a point is the cell in the middle.
fn is_middle(width: u32, height: u32, point: u16) -> bool
    ensures { result ≡ is_middle width height point }
{
    let row = row_of(width, point);
    let column = u32::from(point) % width.max(1);
    height % 2 == 1 && width % 2 == 1 && row == height / 2 && column == width / 2
}

/// Adds the middle if it is the cell.
fn put_middle(out: &mut String, width: u32, height: u32, point: u16) -> Result<(), AllocError>
    ensures { OnOk result
        (string_bytes out.new ≡ string_bytes out.old ++ middle_words width height point) }
{
    if is_middle(width, height, point) {
        out.push_str("the middle: ")?;
    }
    Ok(())
}

/// Adds a cell by its row and its column.
fn put_cell(out: &mut String, width: u32, height: u32, point: u16) -> Result<(), AllocError>
    ensures { OnOk result
        (string_bytes out.new ≡ string_bytes out.old ++ cell_words width height point) }
{
    put_middle(out, width, height, point)?;
    let row = row_of(width, point) + 1;
    let column = u64::from(u32::from(point) % width.max(1)) + 1;
    write!(out, "row {row}, column {column}")?;
    Ok(())
}

/// The ends of the edge of that number, if there is one.
fn ends_at(ends: &[(u16, u16)], edge: u16) -> Option<(u16, u16)>
    ensures { result ≡ slice_get ends.now edge }
{
    ends.get(edge as usize).copied()
}

/// Adds the ends of an edge, if there is one.
fn put_ends(out: &mut String, ends: Option<(u16, u16)>) -> Result<(), AllocError>
    ensures { OnOk result (string_bytes out.new ≡ string_bytes out.old ++ ends_words ends) }
{
    if let Some((from, to)) = ends {
        write!(out, ", between {from} and {to}")?;
    }
    Ok(())
}

/// Adds an edge by its number and its ends.
fn put_edge(out: &mut String, ends: &[(u16, u16)], edge: u16) -> Result<(), AllocError>
    ensures { OnOk result
        (string_bytes out.new ≡ string_bytes out.old ++ edge_words ends.now edge) }
{
    write!(out, "edge {edge}")?;
    put_ends(out, ends_at(ends, edge))
}

/// Adds a point of a game: a cell by its row and its column, an edge with its ends, else a point or
/// a vector by its number. An error means that memory ran out.
pub fn put_point(out: &mut String, layout: &Layout, point: u16) -> Result<(), AllocError>
    ensures { OnOk result
        (string_bytes out.new ≡ string_bytes out.old ++ point_words layout.now.board point) }
{
    match &layout.board {
        Board::Grid { width, height } => put_cell(out, *width, *height, point),
        Board::Ring { .. } | Board::Laid { .. } => {
            write!(out, "point {point}")?;
            Ok(())
        }
        Board::Graph { ends, .. } => put_edge(out, ends.as_slice(), point),
        Board::Table { .. } => {
            write!(out, "vector {point}")?;
            Ok(())
        }
    }
}

/// Returns the words for a side and what it does. An error means that memory ran out.
pub fn side_words(alloc: Global, kind: Kind, side: Side, does: &str) -> Result<Text, Memory>
    ensures { IfOk result (λ text. text ≡ side_words kind side does.now) }
{
    let mut words = String::new(alloc);
    words.push_str(side_name(kind, side))?;
    words.push_str(does)?;
    Ok(Text::from_string(words))
}

/// Returns the words for a side, what it does, and a point. An error means that memory ran out.
pub fn act_words(
    alloc: Global,
    layout: &Layout,
    side: Side,
    does: &str,
    point: u16,
) -> Result<Text, Memory>
    ensures { IfOk result (λ text. text ≡ act_words layout.now side does.now point) }
{
    let mut words = String::new(alloc);
    words.push_str(side_name(layout.kind, side))?;
    words.push_str(does)?;
    put_point(&mut words, layout, point)?;
    Ok(Text::from_string(words))
}
