//! The shapes of points.
ghost use Rattle.std.specs.Prelude.{◌≡◌, ◌++◌, OnOk};
ghost use Rattle.pg_draw.specs.Prelude.{IsWithin};
ghost use Rattle.pg_draw.specs.Shapes.{cell_shapes, corner_if, course_shape, disc_shapes};
ghost use Rattle.pg_draw.specs.Shapes.{edge_shapes, mark_shapes, note_if, point_shapes};

use crate::boards::place_of;
use crate::measures::{
    CELL_MARK_DOWN, CORNER_LEFT, CORNER_UP, DISC_MARK_DOWN, DISC_NUMBER_UP, LOOP_RADIUS,
    POINT_RADIUS,
};
use crate::paints::{edge_paint, point_paint};
use crate::table::push_row;
use crate::words::{push_number, push_number_if, push_number_note, push_words};
use pg_base::{Memory, Side};
use pg_picture::{Paint, Place, Shape};
use pg_places::{CELL, Course, Courses, HALF, MAX_MIDDLE_REACH, lower, upper_left};
use pg_scene::Board;
use std::alloc::Global;

/// Adds the letter of the side that has a point.
pub(crate) fn push_mark(
    alloc: Global,
    shapes: &mut Vec<Shape>,
    at: Place,
    mark: Option<Side>,
) -> Result<(), Memory>
    ensures { OnOk result (shapes.new.items ≡ shapes.old.items ++ mark_shapes at mark) }
{
    match mark {
        None => Ok(()),
        Some(Side::X) => push_words(alloc, shapes, at, "X", Paint::Mark),
        Some(Side::Y) => push_words(alloc, shapes, at, "Y", Paint::Mark),
    }
}

/// Adds the number of a cell at its upper border, if there are to be numbers.
fn push_corner(
    alloc: Global,
    shapes: &mut Vec<Shape>,
    numbers: bool,
    place: Place,
    point: u16,
) -> Result<(), Memory>
    ensures { OnOk result (shapes.new.items ≡ shapes.old.items ++ corner_if numbers place point) }
{
    if numbers {
        let at = upper_left(place, CORNER_LEFT, CORNER_UP);
        push_number(alloc, shapes, at, point as usize, Paint::Corner)?;
    }
    Ok(())
}

/// Adds the cell of a point, with its number and mark.
#[tactic(auto, unfolding(crate::specs::Shapes::cell_shapes))]
fn push_cell(
    alloc: Global,
    shapes: &mut Vec<Shape>,
    numbers: bool,
    place: Place,
    point: u16,
    mark: Option<Side>,
) -> Result<(), Memory>
    requires { IsWithin MAX_MIDDLE_REACH place }
    ensures { OnOk result
        (shapes.new.items ≡ shapes.old.items ++ cell_shapes numbers place point mark) }
{
    let corner = upper_left(place, HALF, HALF);
    let paint = point_paint(mark);
    shapes.push(Shape::Square {
        corner,
        side: CELL,
        paint,
    })?;
    push_corner(alloc, shapes, numbers, place, point)?;
    push_mark(alloc, shapes, lower(place, CELL_MARK_DOWN), mark)
}

/// Adds the disc of a point, with its number and mark.
#[tactic(auto, unfolding(crate::specs::Shapes::disc_shapes))]
fn push_disc(
    alloc: Global,
    shapes: &mut Vec<Shape>,
    numbers: bool,
    centre: Place,
    point: u16,
    mark: Option<Side>,
) -> Result<(), Memory>
    requires { IsWithin MAX_MIDDLE_REACH centre }
    ensures { OnOk result
        (shapes.new.items ≡ shapes.old.items ++ disc_shapes numbers centre point mark) }
{
    let paint = point_paint(mark);
    shapes.push(Shape::Disc {
        centre,
        radius: POINT_RADIUS,
        paint,
    })?;
    let above = upper_left(centre, 0, DISC_NUMBER_UP);
    push_number_if(alloc, shapes, numbers, above, point as usize)?;
    push_mark(alloc, shapes, lower(centre, DISC_MARK_DOWN), mark)
}

/// The shape of an edge.
pub(crate) fn course_shape(course: Course, paint: Paint) -> Shape
    ensures { result ≡ course_shape course paint }
{
    match course {
        Course::Straight { from, to, .. } => Shape::Stroke { from, to, paint },
        Course::Bent { from, bend, to, .. } => Shape::Bow {
            from,
            bend,
            to,
            paint,
        },
        Course::Around { centre } => Shape::Disc {
            centre,
            radius: LOOP_RADIUS,
            paint,
        },
    }
}

/// Adds the number of an edge over it, if there are to be numbers.
fn push_note_if(
    alloc: Global,
    shapes: &mut Vec<Shape>,
    numbers: bool,
    at: Place,
    number: usize,
) -> Result<(), Memory>
    ensures { OnOk result (shapes.new.items ≡ shapes.old.items ++ note_if numbers at number) }
{
    if numbers {
        push_number_note(alloc, shapes, at, number, Paint::Number)?;
    }
    Ok(())
}

/// Adds an edge, with its number over it.
#[tactic(auto, unfolding(crate::specs::Shapes::edge_shapes))]
pub(crate) fn push_edge(
    alloc: Global,
    shapes: &mut Vec<Shape>,
    numbers: bool,
    courses: &Courses,
    edge: u16,
    paint: Paint,
) -> Result<(), Memory>
    ensures { OnOk result
        (shapes.new.items ≡ shapes.old.items ++ edge_shapes numbers courses.now edge paint) }
{
    if let Some(course) = courses.at(edge) {
        shapes.push(course_shape(course, paint))?;
    }
    let place = courses.place_of(edge);
    push_note_if(alloc, shapes, numbers, place, edge as usize)
}

/// Adds a point with its mark.
pub(crate) fn push_point(
    alloc: Global,
    shapes: &mut Vec<Shape>,
    numbers: bool,
    board: &Board,
    courses: &Courses,
    point: u16,
    mark: Option<Side>,
) -> Result<(), Memory>
    ensures { OnOk result
        (shapes.new.items
        ≡ shapes.old.items ++ point_shapes numbers board.now courses.now point mark) }
{
    let place = place_of(board, courses, point);
    match board {
        Board::Grid { .. } => push_cell(alloc, shapes, numbers, place, point, mark),
        Board::Ring { .. } | Board::Laid { .. } => {
            push_disc(alloc, shapes, numbers, place, point, mark)
        }
        Board::Graph { .. } => {
            push_edge(alloc, shapes, numbers, courses, point, edge_paint(mark))
        }
        Board::Table { rows, .. } => {
            push_row(alloc, shapes, numbers, rows.as_slice(), point, mark)
        }
    }
}
