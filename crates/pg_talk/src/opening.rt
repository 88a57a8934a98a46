//! A game from the name of its file.
ghost use Rattle.std.specs.Prelude.{IfErr};
ghost use Rattle.pg_io.specs.Files.{IsAbsent, ReadsOnly};
ghost use Rattle.pg_talk.specs.Halts.{HaltCauses, IsGameHalt};
ghost use Rattle.pg_talk.specs.Opening.{OpensGame};

use crate::halt::Halt;
use pg_files::{GameFault, MAX_GAME_BYTES, read_game};
use pg_game::Game;
use pg_io::{Files, Stop, read_whole};
use pg_messages::Refusal;
use std::alloc::Global;

/// The game under this name.
pub fn open_game<F: Files>(alloc: Global, files: &mut F, name: &str) -> Result<Game, Halt>
    ensures opened { OpensGame (F.told files.old).held name.now result }
    ensures halts { IfErr result IsGameHalt }
    ensures causes { HaltCauses (IsAbsent (F.told files.old).held name.now)
        (F.told files.old).faults (F.told files.new).faults result }
    ensures kept { ReadsOnly (F.told files.old) (F.told files.new) }
{
    let text = read_whole(alloc, files, name, MAX_GAME_BYTES)?;
    match read_game(alloc, &text) {
        Ok(game) => Ok(game),
        Err(GameFault::Bad { number, line }) => Err(Halt::Refused(Refusal::Game { number, line })),
        Err(GameFault::Memory) => Err(Halt::Stopped(Stop::Memory)),
    }
}
