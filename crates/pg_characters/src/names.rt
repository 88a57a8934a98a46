//! The names of columns, cells and points.
ghost use Rattle.std.specs.Prelude.{◌≡◌, ◌<◌, ◌+◌, ◌++◌, ◌∷◌, [], OnOk, string_bytes};
ghost use Rattle.pg_game.specs.Game.{point_count};
ghost use Rattle.pg_characters.specs.Names.{blanks_of, cell_name, column_name, padded};
ghost use Rattle.pg_characters.specs.Names.{padded_right, point_name};

use pg_base::Grid;
use pg_game::{Field, Game, MAX_POINTS};
use std::alloc::AllocError;
use std::fmt::Write;

/// How many letters name columns.
pub const LETTERS: u16 = 26;

/// Adds the lowercase letter of this number, from 0.
fn put_letter(out: &mut String, number: u16) -> Result<(), AllocError>
    requires { number < LETTERS }
    ensures { OnOk result (string_bytes out.new ≡ string_bytes out.old ++ (97 + number) ∷ []) }
{
    out.push(char::from(b'a' + number as u8))
}

/// Adds the name of a column: one letter, or two from the column of number 26 on.
pub(crate) fn put_column(out: &mut String, column: u16) -> Result<(), AllocError>
    requires { column < MAX_POINTS }
    ensures { OnOk result (string_bytes out.new ≡ string_bytes out.old ++ column_name column) }
{
    if column >= LETTERS {
        put_letter(out, column / LETTERS - 1)?;
    }
    put_letter(out, column % LETTERS)
}

/// The blanks that make a number three characters wide.
fn blanks_of(number: u16) -> &'static str
    ensures { result.now ≡ blanks_of number }
{
    if number < 10 {
        "  "
    } else if number < 100 {
        " "
    } else {
        ""
    }
}

/// Adds a number after its blanks.
pub(crate) fn put_padded(out: &mut String, number: u16) -> Result<(), AllocError>
    ensures { OnOk result (string_bytes out.new ≡ string_bytes out.old ++ padded number) }
{
    let blanks = blanks_of(number);
    write!(out, "{blanks}{number}")
}

/// Adds a number before its blanks.
pub(crate) fn put_padded_right(out: &mut String, number: u16) -> Result<(), AllocError>
    ensures { OnOk result (string_bytes out.new ≡ string_bytes out.old ++ padded_right number) }
{
    let blanks = blanks_of(number);
    write!(out, "{number}{blanks}")
}

/// Adds the name of a cell: its column, and its row from 1.
fn put_cell(out: &mut String, grid: Grid, point: u16) -> Result<(), AllocError>
    requires some { 0 < grid.width }
    requires small { point < MAX_POINTS }
    ensures { OnOk result (string_bytes out.new ≡ string_bytes out.old ++ cell_name grid point) }
{
    put_column(out, point % grid.width)?;
    let row = point / grid.width + 1;
    write!(out, "{row}")
}

/// Adds the name of a point: that of its cell where the board has cells, else its number. An error
/// means that memory ran out.
pub fn put_name(out: &mut String, game: &Game, point: u16) -> Result<(), AllocError>
    requires { point < point_count game.now }
    ensures { OnOk result (string_bytes out.new ≡ string_bytes out.old
        ++ point_name game.now.field point) }
{
    if let Field::Lines(field) = &game.field {
        if let Some(grid) = field.grid {
            return put_cell(out, grid, point);
        }
    }
    write!(out, "{point}")
}
