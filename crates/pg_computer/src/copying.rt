//! Copies of games.
ghost use Rattle.std.specs.Prelude.{◌≡◌, IfOk};
ghost use Rattle.pg_computer.specs.Prelude.{entry};

use pg_base::Memory;
use pg_files::{GameFault, print_game, printed_game_is_read, read_game};
use pg_game::Game;
use std::alloc::Global;

/// Returns a game of the same parts, read from the text of the game.
pub(crate) fn copy_of(alloc: Global, game: &Game) -> Result<Game, Memory>
    ensures { IfOk result (λ copy. entry copy ≡ entry game.now) }
{
    printed_game_is_read();
    let text = print_game(alloc, game)?;
    match read_game(alloc, &text) {
        Ok(copy) => Ok(copy),
        Err(GameFault::Memory) => Err(Memory),
        Err(GameFault::Bad { .. }) => unreachable!(),
    }
}
