//! Reading a game and its layout.
ghost use Rattle.std.specs.Prelude.{◌≡◌, ◌≤◌, IfErr, IfOk, IfSome, length};
ghost use Rattle.pg_laying.specs.Prelude.{IsAbsent, IsLayout, MAX_POINTS, ReadsOnly, any_entry};
ghost use Rattle.pg_laying.specs.Laid.{IsLackingLayout, LayoutCauses, OpensLayout, OpensSpots};
ghost use Rattle.pg_laying.specs.Laid.{IsLayoutHalt, open_points, open_points_in};

use crate::no_layout::NoLayout;
use pg_drawing::{Board, open_board};
use pg_game::{Field, Game};
use pg_io::{Files, Stop, read_whole};
use pg_layout::{LayoutFault, MAX_LAYOUT_BYTES, Spots, read_layout};
use pg_talk::Halt;
use std::alloc::Global;

/// Returns how many points a game has, if it is on lines without a grid.
fn open_points_of(game: &Game) -> Option<u16>
    ensures points { result ≡ open_points_in game.now.field }
    ensures few { IfSome result (λ points. points ≤ MAX_POINTS) }
{
    match &game.field {
        Field::Lines(on) if on.grid.is_none() => Some(on.points),
        _ => None,
    }
}

/// Returns how many points a game of any kind has, if it is on lines without a grid.
fn open_points(board: &Board) -> Option<u16>
    ensures points { result ≡ open_points (any_entry board.now) }
    ensures few { IfSome result (λ points. points ≤ MAX_POINTS) }
{
    match board {
        Board::Positional(game) => open_points_of(game),
        Board::Connectivity(_) | Board::Vectors(_) => None,
    }
}

/// Returns the layout of `points` points in the file of that name.
fn open_spots<F: Files>(
    alloc: Global,
    files: &mut F,
    name: &str,
    points: u16,
) -> Result<Spots, NoLayout>
    ensures opened { OpensSpots points (F.told files.old).held name.now result }
    ensures layout { IfOk result (IsLayout points) }
    ensures halts { IfErr result IsLayoutHalt }
    ensures causes { LayoutCauses (IsAbsent (F.told files.old).held name.now)
        (F.told files.old).faults (F.told files.new).faults result }
    ensures kept { ReadsOnly (F.told files.old) (F.told files.new) }
{
    match read_whole(alloc, files, name, MAX_LAYOUT_BYTES) {
        Ok(text) => match read_layout(alloc, &text, points) {
            Ok(spots) => Ok(spots),
            Err(LayoutFault::Bad { number, line }) => Err(NoLayout::Faulty { number, line }),
            Err(LayoutFault::Memory) => Err(NoLayout::Halted(Halt::Stopped(Stop::Memory))),
        },
        Err(stop) => Err(NoLayout::Halted(Halt::Stopped(stop))),
    }
}

/// Returns the layout of a game on lines without a grid, from the files of those names. The
/// layout's file is opened only if the game is one of these.
///
/// # Errors
///
/// `Halted` if the game file is invalid, as `open_board` says it, if a call failed or a file is
/// missing, or if memory ran out; `OtherGame` if the game isn't one on lines without a grid; and
/// `Faulty` if the layout's file is invalid, as `read_layout` says it.
pub fn open_layout<F: Files>(
    alloc: Global,
    files: &mut F,
    game: &str,
    layout: &str,
) -> Result<Spots, NoLayout>
    ensures opened { OpensLayout (F.told files.old).held game.now layout.now result }
    ensures layout { IfOk result (λ spots. IsLayout (length spots) spots) }
    ensures few { IfOk result (λ spots. length spots ≤ MAX_POINTS) }
    ensures halts { IfErr result IsLayoutHalt }
    ensures causes { LayoutCauses (IsLackingLayout (F.told files.old).held game.now layout.now)
        (F.told files.old).faults (F.told files.new).faults result }
    ensures kept { ReadsOnly (F.told files.old) (F.told files.new) }
{
    match open_board(alloc, files, game) {
        Ok(board) => match open_points(&board) {
            Some(points) => open_spots(alloc, files, layout, points),
            None => Err(NoLayout::OtherGame),
        },
        Err(halt) => Err(NoLayout::Halted(halt)),
    }
}
