//! The lines that are still open.
ghost use Rattle.std.specs.Prelude.{◌≡◌, ◌<◌, ◌≤◌, ◌++◌, ◌==◌, IfOk, OnOk, string_bytes};
ghost use Rattle.std.specs.List.{All, count_by, list_any};
ghost use Rattle.pg_base.specs.declared.limits.TheConstants.{MAX_MEMBERS};
ghost use Rattle.pg_game.specs.Game.{lines_of, point_count};
ghost use Rattle.pg_characters.specs.Names.{point_name};
ghost use Rattle.pg_table.specs.OpenLines.{count_text, gap_text, is_kept, is_open, line_text};
ghost use Rattle.pg_table.specs.OpenLines.{lines_text, passes, room_after, shown_lines};

use pg_base::{Kind, Line, MAX_MEMBERS};
use pg_characters::put_name;
use pg_game::{Game, Position};
use std::alloc::AllocError;
use std::fmt::Write;

/// The most lines that are shown.
pub const MAX_SHOWN_LINES: usize = 12;

/// The most names of points in a row.
pub const NAMES_IN_ROW: u16 = 15;

/// Whether a line can still be filled: in Maker-Maker it lacks the points of one side, else those
/// of O.
fn is_open(kind: Kind, position: &Position, line: &Line) -> bool
    requires { All (λ v. v < MAX_MEMBERS) line.now }
    ensures { result ≡ is_open kind position.now line.now }
{
    let of_o = position.y.meets(line.as_slice());
    if kind == Kind::MakerMaker {
        !(of_o && position.x.meets(line.as_slice()))
    } else {
        !of_o
    }
}

/// Whether the point is one of these.
fn has_point(points: &[u16], point: u16) -> bool
    ensures { result ≡ list_any (λ v. v == point) points.now }
{
    points.iter().any(|v| *v == point)
}

/// Whether a line has the point, if one is asked for.
fn passes(through: Option<u16>, line: &Line) -> bool
    ensures { result ≡ passes through line.now }
{
    match through {
        Some(point) => has_point(line.as_slice(), point),
        None => true,
    }
}

/// Whether a line is open and has the point, if one is asked for.
fn is_kept(kind: Kind, position: &Position, through: Option<u16>, line: &Line) -> bool
    requires { All (λ v. v < MAX_MEMBERS) line.now }
    ensures { result ≡ is_kept kind position.now through line.now }
{
    passes(through, line) && is_open(kind, position, line)
}

/// How many lines are open and have the point, if one is asked for.
fn count_open(game: &Game, position: &Position, through: Option<u16>) -> usize
    ensures { result
        ≡ count_by (is_kept game.now.kind position.now through) (lines_of game.now) }
{
    let mut count = 0;
    for line in game.lines() {
        if is_kept(game.kind, position, through, line) {
            count += 1;
        }
    }
    count
}

/// Returns what is before a name in a row with room for so many more: a space, or if there is no
/// room, the end of the row and what begins a further one.
fn gap_of(room: u16) -> &'static str
    ensures { result.now ≡ gap_text room }
{
    if room == 0 { "\n    " } else { " " }
}

/// Returns for how many more names there is room after a name.
fn room_after(room: u16) -> u16
    ensures { result ≡ room_after room }
{
    if room == 0 {
        NAMES_IN_ROW - 1
    } else {
        room - 1
    }
}

/// Adds a name to a row with room for so many more. Returns for how many more its row then has
/// room.
fn put_in_row(out: &mut String, game: &Game, point: u16, room: u16) -> Result<u16, AllocError>
    requires { point < point_count game.now }
    ensures text { OnOk result (string_bytes out.new
        ≡ string_bytes out.old ++ (gap_text room ++ point_name game.now.field point)) }
    ensures room { IfOk result (λ left. left ≡ room_after room) }
{
    out.push_str(gap_of(room))?;
    put_name(out, game, point)?;
    Ok(room_after(room))
}

/// Adds the names of a line's points.
#[tactic(auto, unfolding(crate::specs::OpenLines::line_text))]
fn put_line(out: &mut String, game: &Game, line: &Line) -> Result<(), AllocError>
    requires { All (λ v. v < point_count game.now) line.now }
    ensures { OnOk result (string_bytes out.new
        ≡ string_bytes out.old ++ line_text game.now.field line.now) }
{
    let mut room = NAMES_IN_ROW;
    for point in line.as_slice() {
        room = put_in_row(out, game, *point, room)?;
    }
    out.push_str("\n")
}

/// Adds the first open lines that have the point, if one is asked for.
#[tactic(auto, unfolding(crate::specs::OpenLines::shown_lines))]
fn put_first(
    out: &mut String,
    game: &Game,
    position: &Position,
    through: Option<u16>,
) -> Result<(), AllocError>
    ensures { OnOk result (string_bytes out.new
        ≡ string_bytes out.old ++ shown_lines game.now position.now through) }
{
    let mut count = 0;
    for line in game.lines() {
        if is_kept(game.kind, position, through, line) {
            if count == MAX_SHOWN_LINES {
                out.push_str(" ..\n")?;
                return Ok(());
            }
            put_line(out, game, line)?;
            count += 1;
        }
    }
    Ok(())
}

/// Adds how many lines are open.
#[tactic(auto, unfolding(crate::specs::OpenLines::count_text))]
fn put_count(out: &mut String, count: usize) -> Result<(), AllocError>
    ensures { OnOk result (string_bytes out.new ≡ string_bytes out.old ++ count_text count) }
{
    write!(out, "open lines: {count}\n")
}

/// Adds how many lines are open, and the first of them; of those that have the point, if one is
/// asked for. An error means that memory ran out.
pub fn put_lines(
    out: &mut String,
    game: &Game,
    position: &Position,
    through: Option<u16>,
) -> Result<(), AllocError>
    ensures { OnOk result (string_bytes out.new
        ≡ string_bytes out.old ++ lines_text game.now position.now through) }
{
    let count = count_open(game, position, through);
    put_count(out, count)?;
    put_first(out, game, position, through)
}
