//! Tables of vectors.
ghost use Rattle.std.specs.Prelude.{◌≡◌, ◌≤◌, ◌<◌, ◌+◌, ◌++◌, ◌∷◌, [], OnOk, length};
ghost use Rattle.pg_draw.specs.Prelude.{IsWithin, MAX_VECTORS, Stroke};
ghost use Rattle.pg_picture.specs.declared.paint.Paint.TheVariants as paints;
ghost use Rattle.pg_draw.specs.Shapes.{frame_shapes, place_in_row, place_in_table, row_shapes};
ghost use Rattle.pg_draw.specs.Shapes.{set_down, signs_end, signs_shape, signs_shapes};
ghost use Rattle.pg_draw.specs.Shapes.{table_right, table_shapes, underline, underlines};

use crate::marks::push_mark;
use crate::measures::{
    FIRST_DOWN, HALF_ROW, MAX_TEXT_WIDTH, ROW_HIGH, ROW_MARK, ROW_NUMBER, ROW_RADIUS, ROW_SIGNS,
    ROW_WORD, SECOND_DOWN, SIGN_LETTER,
};
use crate::paints::{point_paint, set_paint};
use crate::size::{text_width, widest};
use crate::words::{push_number_if, push_words};
use pg_base::{Memory, Side};
use pg_captions::Text;
use pg_picture::{Paint, Place, Shape};
use pg_places::{MARGIN, MAX_MIDDLE_REACH, TOP, lower};
use pg_scene::Set;
use std::alloc::Global;

/// A place in a row.
fn place_in_row(row: u16, across: u32) -> Place
    requires { across < MAX_MIDDLE_REACH }
    ensures place { result ≡ place_in_row row across }
    ensures near { IsWithin MAX_MIDDLE_REACH result }
{
    Place {
        across,
        down: TOP + HALF_ROW + ROW_HIGH * u32::from(row),
    }
}

/// Returns the middle of the mark of a row of a table.
pub fn place_in_table(row: u16) -> Place
    ensures place { result ≡ place_in_table row }
    ensures near { IsWithin MAX_MIDDLE_REACH result }
{
    place_in_row(row, MARGIN + ROW_MARK)
}

/// How far signs reach.
fn signs_end(signs: &str) -> u32
    ensures place { result ≡ signs_end signs.now }
    ensures near { result < MAX_TEXT_WIDTH + ROW_SIGNS }
{
    ROW_SIGNS + text_width(SIGN_LETTER, signs)
}

/// How far a table reaches to the right.
pub(crate) fn table_right(rows: &[Text], target: &str) -> u32
    ensures place { result ≡ table_right rows.now target.now }
    ensures near { result < MAX_TEXT_WIDTH + ROW_SIGNS + HALF_ROW }
{
    let wide = widest(SIGN_LETTER, rows).max(text_width(SIGN_LETTER, target));
    ROW_SIGNS + wide + HALF_ROW
}

/// Adds the signs of a row.
fn push_signs(alloc: Global, shapes: &mut Vec<Shape>, row: u16, signs: &str) -> Result<(), Memory>
    ensures { OnOk result (shapes.new.items ≡ shapes.old.items ++ signs_shape row signs.now ∷ []) }
{
    let at = place_in_row(row, MARGIN + ROW_SIGNS);
    push_words(alloc, shapes, at, signs, Paint::Legend)
}

/// Adds the signs of the row of a vector, if there is one of that number.
fn push_row_signs(
    alloc: Global,
    shapes: &mut Vec<Shape>,
    rows: &[Text],
    row: u16,
) -> Result<(), Memory>
    ensures { OnOk result (shapes.new.items ≡ shapes.old.items ++ signs_shapes rows.now row) }
{
    let at = usize::from(row);
    if at < rows.len() {
        push_signs(alloc, shapes, row, rows[at].as_str())?;
    }
    Ok(())
}

/// Adds the row of a vector: its mark, its number and its signs.
#[tactic(auto, unfolding(crate::specs::Shapes::row_shapes))]
pub(crate) fn push_row(
    alloc: Global,
    shapes: &mut Vec<Shape>,
    numbers: bool,
    rows: &[Text],
    row: u16,
    mark: Option<Side>,
) -> Result<(), Memory>
    ensures { OnOk result
        (shapes.new.items ≡ shapes.old.items ++ row_shapes numbers rows.now row mark) }
{
    let centre = place_in_table(row);
    shapes.push(Shape::Disc {
        centre,
        radius: ROW_RADIUS,
        paint: point_paint(mark),
    })?;
    let beside = place_in_row(row, MARGIN + ROW_NUMBER);
    push_number_if(alloc, shapes, numbers, beside, row as usize)?;
    push_mark(alloc, shapes, centre, mark)?;
    push_row_signs(alloc, shapes, rows, row)
}

/// How far below the middle of a row the stroke of a set is.
fn set_down(set: Set) -> u32
    ensures down { result ≡ set_down set }
    ensures few { result ≤ SECOND_DOWN }
{
    match set {
        Set::First => FIRST_DOWN,
        Set::Second => SECOND_DOWN,
    }
}

/// Adds a stroke below the signs of a row, which is in a set.
#[tactic(auto, unfolding(crate::specs::Shapes::underline))]
pub(crate) fn push_underline(
    shapes: &mut Vec<Shape>,
    row: u16,
    signs: &str,
    set: Set,
) -> Result<(), Memory>
    ensures { OnOk result
        (shapes.new.items ≡ shapes.old.items ++ underline row signs.now set ∷ []) }
{
    let down = set_down(set);
    let from = lower(place_in_row(row, MARGIN + ROW_SIGNS), down);
    let to = lower(place_in_row(row, signs_end(signs)), down);
    let paint = set_paint(set);
    shapes.push(Shape::Stroke { from, to, paint })?;
    Ok(())
}

/// Adds a stroke below the row of a vector, if there is one of that number.
pub(crate) fn push_row_underline(
    shapes: &mut Vec<Shape>,
    rows: &[Text],
    row: u16,
    set: Set,
) -> Result<(), Memory>
    ensures { OnOk result (shapes.new.items ≡ shapes.old.items ++ underlines rows.now row set) }
{
    let at = usize::from(row);
    if at < rows.len() {
        push_underline(shapes, row, rows[at].as_str(), set)?;
    }
    Ok(())
}

/// Adds a thin line.
fn push_thin(shapes: &mut Vec<Shape>, from: Place, to: Place) -> Result<(), Memory>
    ensures { OnOk result
        (shapes.new.items ≡ shapes.old.items ++ Stroke from to paints.Line ∷ []) }
{
    let paint = Paint::Line;
    shapes.push(Shape::Stroke { from, to, paint })?;
    Ok(())
}

/// Adds the lines around a table, and one above its last row.
#[tactic(auto, unfolding(crate::specs::Shapes::frame_shapes))]
fn push_frame(shapes: &mut Vec<Shape>, right: u32, rows: u32) -> Result<(), Memory>
    requires { rows ≤ MAX_VECTORS }
    ensures { OnOk result
        (shapes.new.items ≡ shapes.old.items ++ frame_shapes right rows) }
{
    let across = MARGIN;
    let middle = TOP + ROW_HIGH * rows;
    let bottom = TOP + ROW_HIGH * (rows + 1);
    let corner = Place { across, down: TOP };
    let far = Place {
        across: right,
        down: bottom,
    };
    let right_top = Place {
        across: right,
        down: TOP,
    };
    let left_bottom = Place {
        across,
        down: bottom,
    };
    push_thin(shapes, corner, right_top)?;
    push_thin(
        shapes,
        Place {
            across,
            down: middle,
        },
        Place {
            across: right,
            down: middle,
        },
    )?;
    push_thin(shapes, left_bottom, far)?;
    push_thin(shapes, corner, left_bottom)?;
    push_thin(shapes, right_top, far)
}

/// Adds the frame of a table, and the row of its target.
pub(crate) fn push_table(
    alloc: Global,
    shapes: &mut Vec<Shape>,
    rows: &[Text],
    target: &str,
) -> Result<(), Memory>
    requires { length rows.now ≤ MAX_VECTORS }
    ensures { OnOk result
        (shapes.new.items ≡ shapes.old.items ++ table_shapes rows.now target.now) }
{
    let last = rows.len() as u16;
    push_frame(shapes, table_right(rows, target), u32::from(last))?;
    let at = place_in_row(last, MARGIN + ROW_WORD);
    push_words(alloc, shapes, at, "target", Paint::Number)?;
    push_signs(alloc, shapes, last, target)
}
