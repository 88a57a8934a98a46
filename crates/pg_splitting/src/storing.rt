//! Storing positions as game files, and the plan after them.
ghost use Rattle.std.specs.Prelude.{[], ◌∷◌, map};
ghost use Rattle.std.specs.List.{All};
ghost use Rattle.pg_split.specs.Pieces.{IsPiece};
ghost use Rattle.pg_splitting.specs.SplitFiles.{HasSameRules, StoreCauses, StoresAll};
ghost use Rattle.pg_splitting.specs.SplitFiles.{StoresIn, piece_file, split_files};

use pg_files::print_game;
use pg_game::Game;
use pg_io::{Files, Stop, store};
use pg_plan::{game_name, plan_name, print_plan};
use pg_sessions::stand_at;
use pg_split::{Piece, Split};
use std::alloc::Global;

/// Stores the game of a position in its file. The game then has the marks of the position.
fn store_piece<F: Files>(
    alloc: Global,
    game: &mut Game,
    folder: &str,
    piece: &Piece,
    files: &mut F,
) -> Result<(), Stop>
    requires { IsPiece game.old piece.now }
    ensures stored { StoresAll (piece_file folder.now game.old piece.now ∷ [])
        (F.told files.old).held (F.told files.new).held result }
    ensures files { StoresIn folder.now (F.told files.old) (F.told files.new) }
    ensures causes { StoreCauses (F.told files.old).faults (F.told files.new).faults result }
    ensures rules { HasSameRules game.old game.new }
{
    let name = game_name(alloc, folder, piece.file)?;
    stand_at(game, &piece.position);
    let text = print_game(alloc, game)?;
    store(files, name.as_str(), &text)
}

/// Stores the games of positions in their files, in order. The game then has the marks of the last.
fn store_pieces<F: Files>(
    alloc: Global,
    game: &mut Game,
    folder: &str,
    pieces: &[Piece],
    files: &mut F,
) -> Result<(), Stop>
    requires { All (IsPiece game.old) pieces.now }
    ensures stored { StoresAll (map (piece_file folder.now game.old) pieces.now)
        (F.told files.old).held (F.told files.new).held result }
    ensures files { StoresIn folder.now (F.told files.old) (F.told files.new) }
    ensures causes { StoreCauses (F.told files.old).faults (F.told files.new).faults result }
{
    for piece in pieces {
        store_piece(alloc, game, folder, piece, files)?;
    }
    Ok(())
}

/// Stores what a game is split into: the games of the positions in their files, in order, and then
/// the plan. The game then has the marks of the last position.
pub(crate) fn store_split<F: Files>(
    alloc: Global,
    game: &mut Game,
    folder: &str,
    split: &Split,
    files: &mut F,
) -> Result<(), Stop>
    requires { All (IsPiece game.old) split.now.pieces.items }
    ensures stored { StoresAll (split_files folder.now game.old split.now)
        (F.told files.old).held (F.told files.new).held result }
    ensures files { StoresIn folder.now (F.told files.old) (F.told files.new) }
    ensures causes { StoreCauses (F.told files.old).faults (F.told files.new).faults result }
{
    let name = plan_name(alloc, folder)?;
    let text = print_plan(alloc, &split.plan)?;
    let place = name.as_str();
    let bytes = text.as_slice();
    store_pieces(alloc, game, folder, split.pieces.as_slice(), files)?;
    store(files, place, bytes)
}
