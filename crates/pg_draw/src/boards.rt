//! Where the points of boards lie.
ghost use Rattle.std.specs.Prelude.{◌≡◌, IfOk};
ghost use Rattle.pg_draw.specs.Prelude.{IsBoard, IsWithin};
ghost use Rattle.pg_draw.specs.Shapes.{courses_of, place_of};

use crate::table::place_in_table;
use pg_base::Memory;
use pg_picture::Place;
use pg_places::{Courses, MAX_MIDDLE_REACH, Plan, place_on_chart, place_on_grid, place_on_ring};
use pg_scene::Board;
use std::alloc::Global;

/// How the edges of a board run.
pub(crate) fn courses_of(alloc: Global, board: &Board) -> Result<Courses, Memory>
    requires { IsBoard board.now }
    ensures { IfOk result (λ courses. courses ≡ courses_of board.now) }
{
    match board {
        Board::Graph {
            vertices,
            ends,
            bridge,
            ..
        } => {
            let plan = Plan {
                vertices: *vertices,
                bridge: *bridge,
            };
            Courses::of_edges(alloc, plan, ends.as_slice())
        }
        _ => Ok(Courses::none(alloc)),
    }
}

/// The place of a point.
pub(crate) fn place_of(board: &Board, courses: &Courses, point: u16) -> Place
    ensures place { result ≡ place_of board.now courses.now point }
    ensures near { IsWithin MAX_MIDDLE_REACH result }
{
    match board {
        Board::Grid { width, .. } => place_on_grid(*width, point),
        Board::Ring { points } => place_on_ring(*points, point),
        Board::Laid { chart } => place_on_chart(chart, point),
        Board::Graph { .. } => courses.place_of(point),
        Board::Table { .. } => place_in_table(point),
    }
}
