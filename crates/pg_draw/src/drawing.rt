//! Scenes as pictures.
ghost use Rattle.std.specs.Prelude.{◌≡◌, ◌++◌, ◌<◌, ◌≤◌, OnOk, IfOk, length};
ghost use Rattle.pg_draw.specs.Prelude.{flat_map, range_with_len, IsBoard, IsPlan};
ghost use Rattle.pg_draw.specs.Shapes.{bar_shapes, vertex_paint, vertex_shapes, vertices_shapes};
ghost use Rattle.pg_draw.specs.Pictures.{height_of, legend_shapes, picture_of, shapes_of, width_of};
ghost use Rattle.pg_captions.specs.declared.lines.TheConstants.{MAX_LEGEND_LINES};

use crate::boards::courses_of;
use crate::items::push_items;
use crate::measures::{
    HEADING_DOWN, HEADING_LETTER, LEADING, LEGEND_LETTER, MAX_CORNER_REACH, MAX_PICTURE_REACH,
    VERTEX_RADIUS,
};
use crate::sheet::{boards_of, columns_for, copy_places, rows_for, times};
use crate::size::{far_corner, text_width, widest};
use crate::table::push_table;
use crate::words::{push_number_if, push_words, text_of};
use pg_base::Memory;
use pg_captions::{Look, Text};
use pg_picture::{Paint, Picture, Place, Shape, Shapes};
use pg_places::{Courses, MARGIN, Plan, place_on_bridge};
use pg_scene::{Board, Scene};
use std::alloc::Global;

/// Adds the bar of a terminal of a Bridg-It board, from the first row on.
fn push_bar(shapes: &mut Vec<Shape>, plan: Plan, vertex: u16) -> Result<(), Memory>
    requires { IsPlan plan }
    ensures { OnOk result (shapes.new.items ≡ shapes.old.items ++ bar_shapes plan.bridge vertex) }
{
    let Some(rows) = plan.bridge else {
        return Ok(());
    };
    if vertex < 2 {
        let from = place_on_bridge(rows, vertex, 2);
        let to = place_on_bridge(rows, vertex, vertex);
        let paint = Paint::Terminal;
        shapes.push(Shape::Stroke { from, to, paint })?;
    }
    Ok(())
}

/// The paint of a vertex.
fn vertex_paint(terminals: &[u16], vertex: u16) -> Paint
    ensures { result ≡ vertex_paint terminals.now vertex }
{
    if terminals.contains(&vertex) {
        Paint::Terminal
    } else {
        Paint::Vertex
    }
}

/// Adds a vertex.
#[tactic(auto, unfolding(crate::specs::Shapes::vertex_shapes))]
fn push_vertex(
    alloc: Global,
    shapes: &mut Vec<Shape>,
    numbers: bool,
    plan: Plan,
    terminals: &[u16],
    vertex: u16,
) -> Result<(), Memory>
    requires { IsPlan plan }
    ensures { OnOk result
        (shapes.new.items
        ≡ shapes.old.items ++ vertex_shapes numbers plan terminals.now vertex) }
{
    push_bar(shapes, plan, vertex)?;
    let centre = plan.place_of_end(vertex, vertex);
    let paint = vertex_paint(terminals, vertex);
    shapes.push(Shape::Disc {
        centre,
        radius: VERTEX_RADIUS,
        paint,
    })?;
    push_number_if(alloc, shapes, numbers, centre, vertex as usize)
}

/// Adds so many vertices.
fn push_each_vertex(
    alloc: Global,
    shapes: &mut Vec<Shape>,
    numbers: bool,
    plan: Plan,
    terminals: &[u16],
    count: u16,
) -> Result<(), Memory>
    requires { IsPlan plan }
    ensures { OnOk result
        (shapes.new.items ≡ shapes.old.items
        ++ flat_map (vertex_shapes numbers plan terminals.now) (range_with_len 0 count)) }
{
    for vertex in 0..count {
        push_vertex(alloc, shapes, numbers, plan, terminals, vertex)?;
    }
    Ok(())
}

/// Adds the vertices of a board, or the frame of a table with the row of its target.
fn push_vertices(
    alloc: Global,
    shapes: &mut Vec<Shape>,
    numbers: bool,
    board: &Board,
) -> Result<(), Memory>
    requires { IsBoard board.now }
    ensures { OnOk result
        (shapes.new.items ≡ shapes.old.items ++ vertices_shapes numbers board.now) }
{
    if let Board::Table { rows, target } = board {
        return push_table(alloc, shapes, rows.as_slice(), target.as_str());
    }
    let Board::Graph {
        vertices,
        terminals,
        bridge,
        ..
    } = board
    else {
        return Ok(());
    };
    let plan = Plan {
        vertices: *vertices,
        bridge: *bridge,
    };
    push_each_vertex(
        alloc,
        shapes,
        numbers,
        plan,
        terminals.as_slice(),
        *vertices as u16,
    )
}

/// Adds the lines of a legend below a place.
fn push_legend(
    alloc: Global,
    shapes: &mut Vec<Shape>,
    bottom: u32,
    legend: &[Text],
) -> Result<(), Memory>
    requires bottom { bottom ≤ MAX_CORNER_REACH }
    requires few { length legend.now ≤ MAX_LEGEND_LINES }
    ensures { OnOk result (shapes.new.items ≡ shapes.old.items ++ legend_shapes bottom legend.now) }
{
    let mut down = bottom;
    for line in legend {
        down += LEADING;
        let at = Place {
            across: MARGIN,
            down,
        };
        push_words(alloc, shapes, at, line.as_str(), Paint::Legend)?;
    }
    Ok(())
}

/// The shapes of a scene, where its legend stands below that place.
fn shapes_of(
    alloc: Global,
    numbers: bool,
    scene: &Scene,
    courses: &Courses,
    bottom: u32,
) -> Result<Vec<Shape>, Memory>
    requires board { IsBoard scene.now.board }
    requires bottom { bottom ≤ MAX_CORNER_REACH }
    requires few { length scene.now.legend ≤ MAX_LEGEND_LINES }
    ensures { IfOk result (λ shapes. shapes.items
        ≡ shapes_of numbers scene.now courses.now bottom) }
{
    let mut shapes = Vec::new(alloc);
    let at = Place {
        across: MARGIN,
        down: HEADING_DOWN,
    };
    push_words(alloc, &mut shapes, at, scene.title.as_str(), Paint::Heading)?;
    push_items(
        alloc,
        &mut shapes,
        numbers,
        &scene.board,
        courses,
        scene.items.as_slice(),
    )?;
    push_vertices(alloc, &mut shapes, numbers, &scene.board)?;
    push_legend(alloc, &mut shapes, bottom, scene.legend.as_slice())?;
    Ok(shapes)
}

/// How wide the picture of a scene is whose board reaches so far.
fn width_of(scene: &Scene, across: u32) -> u32
    requires { across ≤ MAX_CORNER_REACH }
    ensures width { result ≡ width_of scene.now across }
    ensures small { result < MAX_PICTURE_REACH }
{
    let title = text_width(HEADING_LETTER, scene.title.as_str());
    let legend = widest(LEGEND_LETTER, scene.legend.as_slice());
    MARGIN + across.max(title).max(legend)
}

/// How high the picture of a scene is whose board reaches so far.
fn height_of(scene: &Scene, down: u32) -> u32
    requires down { down ≤ MAX_CORNER_REACH }
    requires few { length scene.now.legend ≤ MAX_LEGEND_LINES }
    ensures height { result ≡ height_of scene.now down }
    ensures small { result < MAX_PICTURE_REACH }
{
    down + MARGIN + LEADING * scene.legend.as_slice().len() as u32
}

/// Returns the picture of a scene: its title, the shapes of each item in the order of the items,
/// the vertices of a graph or the frame of a table, and the legend. The board is within the limits
/// of games, and the legend has at most `MAX_LEGEND_LINES` lines. `look` says whether there are
/// numbers, at what width the picture is shown (a unit is a pixel if it doesn't say that), and how
/// many boards are on the sheet: one if it doesn't say that, and at most `MAX_BOARDS`, three in a
/// row.
///
/// # Errors
///
/// `Memory` if memory ran out.
#[tactic(auto, unfolding(crate::specs::Pictures::picture_of))]
pub fn draw(alloc: Global, scene: &Scene, look: Look) -> Result<Picture, Memory>
    requires board { IsBoard scene.now.board }
    requires few { length scene.now.legend ≤ MAX_LEGEND_LINES }
    ensures { IfOk result (λ picture. picture ≡ picture_of look scene.now) }
{
    let courses = courses_of(alloc, &scene.board)?;
    let corner = far_corner(&scene.board, &courses);
    let shapes = shapes_of(alloc, look.numbers, scene, &courses, corner.down)?;
    let width = width_of(scene, corner.across);
    let height = height_of(scene, corner.down);
    let boards = boards_of(look.blank);
    let copies = copy_places(alloc, width, height, boards)?;
    Ok(Picture {
        width: times(width, columns_for(boards)),
        height: times(height, rows_for(boards)),
        size: look.size,
        title: text_of(alloc, scene.title.as_str())?,
        shapes: Shapes::from_vec(shapes),
        copies,
    })
}
