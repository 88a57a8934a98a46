//! Where the points of a game lie.
ghost use Rattle.std.specs.Prelude.{◌≡◌};
ghost use Rattle.pg_book_parts.specs.Layouts.{place_at};

use pg_base::Kind;
use pg_draw::place_in_table;
use pg_layout::Chart;
use pg_picture::Place;
use pg_places::{Courses, place_on_chart, place_on_grid, place_on_ring};
use pg_scene::Board;

/// What moves of a game are named and placed by.
#[derive(Debug, Drop)]
pub struct Layout {
    /// The kind of the game, by which its sides are named.
    pub kind: Kind,
    /// The places of a layout for its points, if one is given.
    pub chart: Option<Chart>,
    /// What its points are drawn as.
    pub board: Board,
    /// How its edges run, if its points are edges.
    pub courses: Courses,
}

impl Layout {
    /// Returns the place of a point, as pictures have it.
    pub(crate) fn place_of(&self, point: u16) -> Place
        ensures { result ≡ place_at self.now point }
    {
        match &self.board {
            Board::Grid { width, .. } => place_on_grid(*width, point),
            Board::Ring { points } => place_on_ring(*points, point),
            Board::Laid { chart } => place_on_chart(chart, point),
            Board::Graph { .. } => self.courses.place_of(point),
            Board::Table { .. } => place_in_table(point),
        }
    }
}
