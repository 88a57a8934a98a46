//! What a game is played on.
ghost use Rattle.std.specs.Prelude.{◌≡◌, None, IfOk};
ghost use Rattle.std.specs.List.{AllZip, Any};
ghost use Rattle.pg_base.specs.Line.{StandsTwice};
ghost use Rattle.pg_game.specs.Rows.{IsLineOfRow};

use pg_base::{Grid, Line, LineFault, Lines};
use pg_graph::Graph;
use std::alloc::Global;

/// Points and lines of points.
#[derive(Debug, Drop)]
pub struct LineField {
    /// How many points there are: 1 to 256.
    pub points: u16,
    /// The board whose cells the points are, where it is one.
    pub grid: Option<Grid>,
    /// The lines that somebody wants, or must avoid, to fill.
    pub lines: Lines,
}

/// What a game is played on.
#[derive(Debug, Drop)]
pub enum Field {
    /// Lines, of the three kinds with lines.
    Lines(LineField),
    /// The edges of a multigraph, of the switching game.
    Graph(Graph),
}

impl LineField {
    /// So many points, without a grid, and for each row, in order, the line of its points.
    ///
    /// The points of a row may come in any order. Whether the field is within the limits is for
    /// `Game::new` to say.
    ///
    /// # Errors
    ///
    /// `Repeated` exactly where a point stands twice in some row, and `Memory` where no memory is
    /// found.
    pub fn from_rows(alloc: Global, points: u16, rows: &[&[u16]]) -> Result<LineField, LineFault>
        ensures points { IfOk result (λ field. field.points ≡ points) }
        ensures grid { IfOk result (λ field. field.grid ≡ None) }
        ensures lines { IfOk result
            (λ field. AllZip (λ row line. IsLineOfRow row.now line) rows.now field.lines) }
        ensures repeated { result ≡ Err LineFault.Repeated
            → Any (λ row. StandsTwice row.now) rows.now }
    {
        let mut lines = Vec::new(alloc);
        for row in rows {
            let line = Line::new(alloc, row)?;
            let Ok(()) = lines.push(line) else {
                return Err(LineFault::Memory);
            };
        }
        Ok(LineField {
            points,
            grid: None,
            lines: Lines::from_vec(lines),
        })
    }
}
