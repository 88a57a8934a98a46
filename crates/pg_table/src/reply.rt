//! What a line typed at a board means.
ghost use Rattle.std.specs.Prelude.{◌≡◌};
ghost use Rattle.pg_table.specs.Reply.{cell_at, cell_named, claim_of, field_point, is_letter};
ghost use Rattle.pg_table.specs.Reply.{lines_through, read_command, read_pair, read_reply};

use pg_base::{Grid, SPACE};
use pg_game::Field;
use pg_text::{number, two_parts};

/// What a line typed at a board means.
#[derive(Clone, Copy, Debug, PartialEq, Eq)]
pub enum Reply {
    /// Claims the point of this number.
    Point(u32),
    /// Takes the last point back.
    Undo,
    /// Shows the open lines: those that have this point, if one is named.
    Lines(Option<u32>),
    /// Shows what the sides want and the commands.
    Help,
    /// Leaves the game.
    Quit,
    /// The name of a cell that the board doesn't have.
    NoCell,
    /// Nothing that has a meaning.
    Unclear,
}

/// What a text names.
#[derive(Clone, Copy, Debug, PartialEq, Eq)]
pub(crate) enum Named {
    /// The point of this number.
    Point(u32),
    /// A cell that the board doesn't have.
    NoCell,
    /// Nothing.
    Nothing,
}

/// Whether the byte is a lowercase letter of ASCII.
fn is_letter(byte: u8) -> bool
    ensures { result ≡ is_letter byte }
{
    b'a' <= byte && byte <= b'z'
}

/// Returns the cell in this column, and in the row of this number from 1.
fn cell_at(grid: Grid, column: u16, row: Option<u32>) -> Named
    ensures { result ≡ cell_at grid column row }
{
    let Some(row) = row else {
        return Named::Nothing;
    };
    if column < grid.width && 0 < row && row <= u32::from(grid.height) {
        Named::Point((row - 1) * u32::from(grid.width) + u32::from(column))
    } else {
        Named::NoCell
    }
}

/// Returns the cell that a text names: by one or two letters for the column, and the number of the
/// row.
fn cell_named(grid: Grid, text: &[u8]) -> Named
    ensures { result ≡ cell_named grid text.now }
{
    match text {
        [one, other, row @ ..] if is_letter(*one) && is_letter(*other) => {
            let column = (u16::from(*one - b'a') + 1) * 26 + u16::from(*other - b'a');
            cell_at(grid, column, number(row))
        }
        [one, row @ ..] if is_letter(*one) => { cell_at(grid, u16::from(*one - b'a'), number(row)) }
        _ => Named::Nothing,
    }
}

/// Returns what a text names: a point by its number, or a cell.
fn point_named(field: &Field, text: &[u8]) -> Named
    ensures { result ≡ field_point field.now text.now }
{
    if let Some(point) = number(text) {
        return Named::Point(point);
    }
    match field {
        Field::Lines(field) => match field.grid {
            Some(grid) => cell_named(grid, text),
            None => Named::Nothing,
        },
        Field::Graph(_) => Named::Nothing,
    }
}

/// Returns the reply that asks for the open lines through what was named.
fn lines_through(named: Named) -> Reply
    ensures { result ≡ lines_through named }
{
    match named {
        Named::Point(point) => Reply::Lines(Some(point)),
        Named::NoCell => Reply::NoCell,
        Named::Nothing => Reply::Unclear,
    }
}

/// Returns the reply that claims what was named.
fn claim_of(named: Named) -> Reply
    ensures { result ≡ claim_of named }
{
    match named {
        Named::Point(point) => Reply::Point(point),
        Named::NoCell => Reply::NoCell,
        Named::Nothing => Reply::Unclear,
    }
}

/// What a text of two words asks for: the open lines through a point, or nothing with a meaning.
fn read_pair(field: &Field, first: &[u8], second: &[u8]) -> Reply
    ensures { result ≡ read_pair field.now first.now second.now }
{
    if first != b"lines".as_slice() {
        return Reply::Unclear;
    }
    lines_through(point_named(field, second))
}

/// What a text of one word asks for, if it is a command.
fn read_command(text: &[u8]) -> Option<Reply>
    ensures { result ≡ read_command text.now }
{
    if text == b"undo".as_slice() {
        Some(Reply::Undo)
    } else if text == b"lines".as_slice() {
        Some(Reply::Lines(None))
    } else if text == b"?".as_slice() {
        Some(Reply::Help)
    } else if text == b"quit".as_slice() {
        Some(Reply::Quit)
    } else {
        None
    }
}

/// What a text typed at a game's board means: `undo`, `lines`, `lines P`, `?`, `quit`, or the name
/// or the number of a point.
pub fn read_reply(field: &Field, text: &[u8]) -> Reply
    ensures { result ≡ read_reply field.now text.now }
{
    if let Some(reply) = read_command(text) {
        return reply;
    }
    if let Some((first, second)) = two_parts(SPACE, text) {
        return read_pair(field, first, second);
    }
    claim_of(point_named(field, text))
}
