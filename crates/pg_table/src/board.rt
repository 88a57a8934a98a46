//! The text of a board.
ghost use Rattle.std.specs.Prelude.{◌≡◌, ◌++◌, OnOk, string_bytes};
ghost use Rattle.pg_game.specs.Game.{point_count};
ghost use Rattle.pg_table.specs.Board.{board_text, open_text, picture_text, placed_text};

use crate::open_lines::put_lines;
use pg_base::Grid;
use pg_characters::{Sheet, Shown, paper_rows, put_chart, put_entries, put_sheet};
use pg_game::{Field, Game};
use std::alloc::AllocError;

/// The sheet of a board of cells.
fn cells_of(grid: Grid) -> Sheet
    ensures { result ≡ Sheet.Cells grid.width grid.height }
{
    Sheet::Cells {
        width: grid.width,
        height: grid.height,
    }
}

/// Adds the points of a board without cells: by a layout with as many places, or in rows.
fn put_placed(out: &mut String, game: &Game, shown: &Shown) -> Result<(), AllocError>
    ensures { OnOk result (string_bytes out.new
        ≡ string_bytes out.old ++ placed_text game.now shown.now) }
{
    if let Some(chart) = &shown.look.layout {
        let spots = chart.as_slice();
        if spots.len() == usize::from(game.points()) {
            return put_chart(out, spots, shown);
        }
    }
    put_entries(out, game, shown)
}

/// Adds the picture of a board: a grid of cells, points by a layout, Bridg-It as on paper, or
/// entries in rows.
fn put_picture(out: &mut String, game: &Game, shown: &Shown) -> Result<(), AllocError>
    ensures { OnOk result (string_bytes out.new
        ≡ string_bytes out.old ++ picture_text game.now shown.now) }
{
    match &game.field {
        Field::Lines(field) => {
            if let Some(grid) = field.grid {
                return put_sheet(out, cells_of(grid), shown);
            }
            put_placed(out, game, shown)
        }
        Field::Graph(graph) => {
            if let Some(rows) = paper_rows(graph) {
                return put_sheet(out, Sheet::Paper { rows }, shown);
            }
            put_entries(out, game, shown)
        }
    }
}

/// Adds the lines that are open, if the game is on lines of points that are no cells.
fn put_open(out: &mut String, game: &Game, shown: &Shown) -> Result<(), AllocError>
    ensures { OnOk result (string_bytes out.new
        ≡ string_bytes out.old ++ open_text game.now shown.now) }
{
    match &game.field {
        Field::Lines(field) if field.grid.is_none() => {
            put_lines(out, game, &shown.position, None)
        }
        _ => Ok(()),
    }
}

/// Adds the text of a board: its points with their marks, and the lines that are open if the points
/// are no cells. An error means that memory ran out.
pub fn put_board(out: &mut String, game: &Game, shown: &Shown) -> Result<(), AllocError>
    ensures { OnOk result (string_bytes out.new
        ≡ string_bytes out.old ++ board_text game.now shown.now) }
{
    put_picture(out, game, shown)?;
    put_open(out, game, shown)
}
