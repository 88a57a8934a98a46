//! Pictures of recorded games.
ghost use Rattle.std.specs.Prelude.{◌≡◌, ◌≤◌, IfOk, length, string_bytes};
ghost use Rattle.pg_replaying.specs.Prelude.{AreBelow, IsLegalPlay, is_over, point_count};
ghost use Rattle.pg_replaying.specs.Prelude.{position_after, start};
ghost use Rattle.pg_replaying.specs.Due.{DrawsMoves, IsMovesDue, SaysNoMove, wanted};

use pg_base::Memory;
use pg_captions::Look;
use pg_drawing::Telling;
use pg_game::{Game, Judge, Position};
use pg_messages::{DONE, NO_MEANING};
use pg_picture::print_picture;
use pg_scene::{scene_of_moves, scenes_can_be_laid_out};
use std::alloc::Global;

/// The line that is said if there are fewer moves than are asked for.
pub const NO_MOVE: &str = "words: no such move\n";

/// Returns the position after these moves.
fn position_after(game: &Game, moves: &[u16]) -> Position
    requires { IsLegalPlay game.now (start game.now) moves.now }
    ensures { result ≡ position_after game.now moves.now }
{
    let mut position = game.start();
    for v in moves {
        position = game.after(&position, *v);
    }
    position
}

/// Returns whether the game is over at a position.
fn is_over(alloc: Global, game: &Game, p: &Position) -> Result<bool, Memory>
    requires { AreBelow p.now.x (point_count game.now) }
    ensures { IfOk result (λ over. over ≡ is_over game.now p.now) }
{
    let mut judge = Judge::new(alloc, game)?;
    Ok(judge.over(game, p).is_some())
}

/// Returns the text of the picture of a game after these moves.
fn moves_text(alloc: Global, look: Look, game: &Game, moves: &[u16]) -> Result<String, Memory>
    requires { IsLegalPlay game.now (start game.now) moves.now }
    ensures { IfOk result (λ text. DrawsMoves look game.now moves.now (string_bytes text)) }
{
    scenes_can_be_laid_out();
    let p = position_after(game, moves);
    let over = is_over(alloc, game, &p)?;
    let scene = scene_of_moves(alloc, game, &p, over, moves, look)?;
    let picture = pg_draw::draw(alloc, &scene, look)?;
    Ok(print_picture(alloc, &picture)?)
}

/// Returns that there are fewer moves.
fn no_move(alloc: Global) -> Result<Telling, Memory>
    ensures { IfOk result (λ told. SaysNoMove (string_bytes told.words) told.status) }
{
    Ok(Telling {
        words: String::from_str(alloc, NO_MOVE)?,
        status: NO_MEANING,
    })
}

/// Returns after how many moves the game is to be drawn.
fn wanted(count: Option<u32>, moves: &[u16]) -> usize
    ensures { result ≡ wanted count moves.now }
{
    match count {
        Some(count) => count as usize,
        None => moves.len(),
    }
}

/// Returns the picture of a game after so many of these moves, or after all if no number is given.
pub(crate) fn tell_moves(
    alloc: Global,
    look: Look,
    game: &Game,
    moves: &[u16],
    count: Option<u32>,
) -> Result<Telling, Memory>
    requires { IsLegalPlay game.now (start game.now) moves.now }
    ensures { IfOk result (λ told. IsMovesDue look game.now moves.now (wanted count moves.now)
        (string_bytes told.words) told.status) }
{
    let count = wanted(count, moves);
    if count > moves.len() {
        return no_move(alloc);
    }
    let words = moves_text(alloc, look, game, &moves[..count])?;
    Ok(Telling {
        words,
        status: DONE,
    })
}
