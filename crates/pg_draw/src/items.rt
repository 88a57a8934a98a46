//! The shapes of items.
ghost use Rattle.std.specs.Prelude.{◌≡◌, ◌<◌, ◌≤◌, ◌+◌, ◌++◌, OnOk, length};
ghost use Rattle.pg_draw.specs.Prelude.{flat_map, IsBoard, MAX_EDGES, IsPlan, IsWithin};
ghost use Rattle.pg_draw.specs.Shapes.{badge_shapes, cell_ring_shapes, extra_shapes, fault_shapes};
ghost use Rattle.pg_draw.specs.Shapes.{item_shapes, place_beside};
ghost use Rattle.pg_draw.specs.Shapes.{lane_place, line_shapes, member_shapes, pair_shapes};
ghost use Rattle.pg_draw.specs.Shapes.{part_shapes, place_in, reached_shapes, ring_shapes};
ghost use Rattle.pg_draw.specs.Shapes.{further_edge_shapes, weight_shapes};

use crate::boards::place_of;
use crate::marks::{course_shape, push_edge, push_point};
use crate::measures::{
    BADGE_RADIUS, BADGE_RIGHT, BADGE_UP, CELL_CHILD_DOWN, CELL_CHILD_RADIUS, CHILD_RADIUS,
    CROSS_BOTTOM, CROSS_LEFT, CROSS_RIGHT, CROSS_TOP, EDGE_CHILD_RADIUS, EDGE_NOTE_DOWN, GROUP,
    GROUP_ACROSS, GROUP_DOWN, LANE_ACROSS, LANE_DOWN, LANES, LINE_DOT_RADIUS, MAX_CORNER_REACH,
    MAX_STEPS, MEMBER_RADIUS, NOTE_DOWN, PAIR_DOT_RADIUS,
};
use crate::paints::{pair_paint, set_paint, step_paint};
use crate::table::{push_row_underline, push_underline};
use crate::words::{push_note, push_number, push_number_note, push_plate};
use pg_base::Memory;
use pg_captions::Text;
use pg_picture::{Paint, Place, Shape};
use pg_places::{
    Courses, MAX_MIDDLE_REACH, Plan, course_of, lower, parallels, place_on, upper_left, upper_right,
};
use pg_scene::{Board, Item, Set};
use std::alloc::Global;

/// The place of that number beside another.
fn place_beside(number: usize, across: u32, down: u32, place: Place) -> Place
    requires few { number < MAX_STEPS }
    requires across { across ≤ LANE_ACROSS }
    requires down { down ≤ GROUP_DOWN }
    requires place { IsWithin MAX_CORNER_REACH place }
    ensures place { result ≡ place_beside number across down place }
    ensures near { (result.across ≤ place.across + 18) × (result.down ≤ place.down + 18) }
{
    let steps = (number / 2) as u32;
    if number % 2 == 1 {
        Place {
            across: place.across + (steps + 1) * across,
            down: place.down + (steps + 1) * down,
        }
    } else {
        upper_left(place, steps * across, steps * down)
    }
}

/// The place of a lane beside another.
#[tactic(auto, unfolding(crate::specs::Shapes::lane_place))]
fn lane_place(lane: usize, place: Place) -> Place
    requires { IsWithin MAX_MIDDLE_REACH place }
    ensures { result ≡ lane_place lane place }
{
    let among = lane % LANES;
    let group = place_beside(among / GROUP, GROUP_ACROSS, GROUP_DOWN, place);
    place_beside(among % GROUP, LANE_ACROSS, LANE_DOWN, group)
}

/// The place of a point of a line in that lane.
fn place_in(board: &Board, courses: &Courses, lane: usize, point: u16) -> Place
    ensures { result ≡ place_in board.now courses.now lane point }
{
    lane_place(lane, place_of(board, courses, point))
}

/// Adds a dot at the first of the points of a line, and strokes from each to the next.
fn push_line(
    shapes: &mut Vec<Shape>,
    board: &Board,
    courses: &Courses,
    lane: usize,
    points: &[u16],
) -> Result<(), Memory>
    ensures { OnOk result
        (shapes.new.items
        ≡ shapes.old.items ++ line_shapes (place_in board.now courses.now lane) points.now) }
{
    let Some((first, others)) = points.split_first() else {
        return Ok(());
    };
    let mut from = place_in(board, courses, lane, *first);
    shapes.push(Shape::Disc {
        centre: from,
        radius: LINE_DOT_RADIUS,
        paint: Paint::Line,
    })?;
    for point in others {
        let to = place_in(board, courses, lane, *point);
        shapes.push(Shape::Stroke {
            from,
            to,
            paint: Paint::Line,
        })?;
        from = to;
    }
    Ok(())
}

/// Adds a stroke with a dot at both its ends.
#[tactic(auto, unfolding(crate::specs::Shapes::pair_shapes))]
fn push_pair(shapes: &mut Vec<Shape>, from: Place, to: Place, paint: Paint) -> Result<(), Memory>
    ensures { OnOk result (shapes.new.items ≡ shapes.old.items ++ pair_shapes from to paint) }
{
    shapes.push(Shape::Stroke { from, to, paint })?;
    shapes.push(Shape::Disc {
        centre: from,
        radius: PAIR_DOT_RADIUS,
        paint,
    })?;
    shapes.push(Shape::Disc {
        centre: to,
        radius: PAIR_DOT_RADIUS,
        paint,
    })?;
    Ok(())
}

/// Adds a weight below a place.
fn push_weight(
    alloc: Global,
    shapes: &mut Vec<Shape>,
    place: Place,
    weight: &Text,
) -> Result<(), Memory>
    requires { IsWithin MAX_MIDDLE_REACH place }
    ensures { OnOk result (shapes.new.items ≡ shapes.old.items ++ weight_shapes place weight.now) }
{
    let under = lower(place, NOTE_DOWN);
    push_note(alloc, shapes, under, weight.as_str(), Paint::Weight)
}

/// Adds a member of a set.
fn push_member(
    alloc: Global,
    shapes: &mut Vec<Shape>,
    numbers: bool,
    board: &Board,
    courses: &Courses,
    point: u16,
    set: Set,
) -> Result<(), Memory>
    ensures { OnOk result
        (shapes.new.items
        ≡ shapes.old.items ++ member_shapes numbers board.now courses.now point set) }
{
    let paint = set_paint(set);
    if let Board::Graph { .. } = board {
        return push_edge(alloc, shapes, numbers, courses, point, paint);
    }
    if let Board::Table { rows, .. } = board {
        return push_row_underline(shapes, rows.as_slice(), point, set);
    }
    let centre = place_of(board, courses, point);
    shapes.push(Shape::Disc {
        centre,
        radius: MEMBER_RADIUS,
        paint,
    })?;
    Ok(())
}

/// Adds the further edge `e` between two terminals.
#[tactic(auto, unfolding(crate::specs::Shapes::further_edge_shapes))]
fn push_further_edge(
    alloc: Global,
    shapes: &mut Vec<Shape>,
    plan: Plan,
    ends: &[(u16, u16)],
    terminals: (u16, u16),
    set: Set,
) -> Result<(), Memory>
    requires plan { IsPlan plan }
    requires few { length ends.now ≤ MAX_EDGES }
    ensures { OnOk result
        (shapes.new.items ≡ shapes.old.items ++ further_edge_shapes plan ends.now terminals set) }
{
    let course = course_of(plan, parallels(ends, terminals) + 1, terminals);
    shapes.push(course_shape(course, set_paint(set)))?;
    shapes.push(course_shape(course, Paint::Extra))?;
    push_note(alloc, shapes, place_on(course), "e", Paint::Number)
}

/// Adds the further edge between the terminals of a board, where it has two, or a stroke below the
/// target of a table.
fn push_extra(alloc: Global, shapes: &mut Vec<Shape>, board: &Board, set: Set) -> Result<(), Memory>
    requires { IsBoard board.now }
    ensures { OnOk result (shapes.new.items ≡ shapes.old.items ++ extra_shapes board.now set) }
{
    if let Board::Table { rows, target } = board {
        return push_underline(shapes, rows.as_slice().len() as u16, target.as_str(), set);
    }
    let Board::Graph {
        vertices,
        ends,
        terminals,
        bridge,
    } = board
    else {
        return Ok(());
    };
    let terminals = terminals.as_slice();
    if terminals.len() != 2 {
        return Ok(());
    }
    let plan = Plan {
        vertices: *vertices,
        bridge: *bridge,
    };
    push_further_edge(
        alloc,
        shapes,
        plan,
        ends.as_slice(),
        (terminals[0], terminals[1]),
        set,
    )
}

/// Adds a number in a ring beside a place.
#[tactic(auto, unfolding(crate::specs::Shapes::badge_shapes))]
fn push_badge(
    alloc: Global,
    shapes: &mut Vec<Shape>,
    place: Place,
    number: usize,
    paint: Paint,
) -> Result<(), Memory>
    requires { IsWithin MAX_MIDDLE_REACH place }
    ensures { OnOk result (shapes.new.items ≡ shapes.old.items ++ badge_shapes place number paint) }
{
    let centre = upper_right(place, BADGE_RIGHT, BADGE_UP);
    push_plate(shapes, centre, BADGE_RADIUS)?;
    shapes.push(Shape::Disc {
        centre,
        radius: BADGE_RADIUS,
        paint,
    })?;
    push_number(alloc, shapes, centre, number, Paint::Number)
}

/// Adds the number of a vertex's part.
fn push_part(
    alloc: Global,
    shapes: &mut Vec<Shape>,
    board: &Board,
    vertex: u16,
    part: u16,
) -> Result<(), Memory>
    requires { IsBoard board.now }
    ensures { OnOk result
        (shapes.new.items ≡ shapes.old.items ++ part_shapes board.now vertex part) }
{
    let Board::Graph {
        vertices,
        bridge,
        ..
    } = board
    else {
        return Ok(());
    };
    let plan = Plan {
        vertices: *vertices,
        bridge: *bridge,
    };
    let place = plan.place_of_end(vertex, vertex);
    push_badge(
        alloc,
        shapes,
        place,
        part as usize,
        pair_paint(part as usize),
    )
}

/// Adds a ring around a place, with the node that follows in it.
#[tactic(auto, unfolding(crate::specs::Shapes::ring_shapes))]
fn push_ring(
    alloc: Global,
    shapes: &mut Vec<Shape>,
    centre: Place,
    radius: u32,
    down: u32,
    child: u32,
    paint: Paint,
) -> Result<(), Memory>
    requires near { IsWithin MAX_MIDDLE_REACH centre }
    requires down { down ≤ EDGE_NOTE_DOWN }
    ensures { OnOk result
        (shapes.new.items ≡ shapes.old.items ++ ring_shapes centre radius down child paint) }
{
    shapes.push(Shape::Disc {
        centre,
        radius,
        paint,
    })?;
    let at = lower(centre, down);
    push_number_note(alloc, shapes, at, child as usize, paint)
}

/// Adds a ring in the cell of a place, below the cell's number, with the node that follows in it.
#[tactic(auto, unfolding(crate::specs::Shapes::cell_ring_shapes))]
fn push_cell_ring(
    alloc: Global,
    shapes: &mut Vec<Shape>,
    place: Place,
    child: u32,
    paint: Paint,
) -> Result<(), Memory>
    requires { IsWithin MAX_MIDDLE_REACH place }
    ensures { OnOk result
        (shapes.new.items ≡ shapes.old.items ++ cell_ring_shapes place child paint) }
{
    shapes.push(Shape::Disc {
        centre: lower(place, CELL_CHILD_DOWN),
        radius: CELL_CHILD_RADIUS,
        paint,
    })?;
    let at = lower(place, NOTE_DOWN);
    push_number_note(alloc, shapes, at, child as usize, paint)
}

/// Adds a ring around a point, with the node that follows in it.
fn push_reached(
    alloc: Global,
    shapes: &mut Vec<Shape>,
    board: &Board,
    courses: &Courses,
    point: u16,
    child: u32,
    paint: Paint,
) -> Result<(), Memory>
    ensures { OnOk result
        (shapes.new.items
        ≡ shapes.old.items ++ reached_shapes board.now courses.now point child paint) }
{
    let place = place_of(board, courses, point);
    match board {
        Board::Grid { .. } => push_cell_ring(alloc, shapes, place, child, paint),
        Board::Ring { .. } | Board::Laid { .. } | Board::Table { .. } => {
            push_ring(alloc, shapes, place, CHILD_RADIUS, NOTE_DOWN, child, paint)
        }
        Board::Graph { .. } => push_ring(
            alloc,
            shapes,
            place,
            EDGE_CHILD_RADIUS,
            EDGE_NOTE_DOWN,
            child,
            paint,
        ),
    }
}

/// Adds the cross of a fault.
#[tactic(auto, unfolding(crate::specs::Shapes::fault_shapes))]
fn push_fault(shapes: &mut Vec<Shape>) -> Result<(), Memory>
    ensures { OnOk result (shapes.new.items ≡ shapes.old.items ++ fault_shapes) }
{
    shapes.push(Shape::Stroke {
        from: Place {
            across: CROSS_LEFT,
            down: CROSS_TOP,
        },
        to: Place {
            across: CROSS_RIGHT,
            down: CROSS_BOTTOM,
        },
        paint: Paint::Fault,
    })?;
    shapes.push(Shape::Stroke {
        from: Place {
            across: CROSS_RIGHT,
            down: CROSS_TOP,
        },
        to: Place {
            across: CROSS_LEFT,
            down: CROSS_BOTTOM,
        },
        paint: Paint::Fault,
    })?;
    Ok(())
}

/// Adds an item.
fn push_item(
    alloc: Global,
    shapes: &mut Vec<Shape>,
    numbers: bool,
    board: &Board,
    courses: &Courses,
    item: &Item,
) -> Result<(), Memory>
    requires { IsBoard board.now }
    ensures { OnOk result
        (shapes.new.items
        ≡ shapes.old.items ++ item_shapes numbers board.now courses.now item.now) }
{
    let place = |point: &u16| place_of(board, courses, *point);
    match item {
        Item::Point { point, mark } => {
            push_point(alloc, shapes, numbers, board, courses, *point, *mark)
        }
        Item::Line { points, lane } => push_line(shapes, board, courses, *lane, points.as_slice()),
        Item::Pair {
            first,
            second,
            number,
        } => push_pair(shapes, place(first), place(second), pair_paint(*number)),
        Item::Weight { point, weight } => push_weight(alloc, shapes, place(point), weight),
        Item::Member { point, set } => {
            push_member(alloc, shapes, numbers, board, courses, *point, *set)
        }
        Item::Extra { set } => push_extra(alloc, shapes, board, *set),
        Item::Step { point, number } => {
            push_badge(alloc, shapes, place(point), *number, step_paint(*number))
        }
        Item::Move { point, child } => {
            push_reached(alloc, shapes, board, courses, *point, *child, Paint::Move)
        }
        Item::Reply { point, child } => {
            push_reached(alloc, shapes, board, courses, *point, *child, Paint::Reply)
        }
        Item::Part { vertex, part } => push_part(alloc, shapes, board, *vertex, *part),
        Item::Fault => push_fault(shapes),
    }
}

/// Adds items in order.
pub(crate) fn push_items(
    alloc: Global,
    shapes: &mut Vec<Shape>,
    numbers: bool,
    board: &Board,
    courses: &Courses,
    items: &[Item],
) -> Result<(), Memory>
    requires { IsBoard board.now }
    ensures { OnOk result
        (shapes.new.items
        ≡ shapes.old.items
        ++ flat_map (item_shapes numbers board.now courses.now) items.now) }
{
    for item in items {
        push_item(alloc, shapes, numbers, board, courses, item)?;
    }
    Ok(())
}
