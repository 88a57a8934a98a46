//! The moves of a record.
ghost use Rattle.std.specs.Prelude.{◌≡◌, IfErr, IfOk};
ghost use Rattle.pg_replaying.specs.Prelude.{HaltCauses, IsAbsent, IsLegalPlay, IsReadAs, Opens};
ghost use Rattle.pg_replaying.specs.Prelude.{ReadsOnly, record_of, standing, start};
ghost use Rattle.pg_replaying.specs.Records.{IsRecordHalt, IsTextHalt, moves_held, moves_told};

use pg_base::Memory;
use pg_game::Game;
use pg_io::{Files, Stop, read_whole};
use pg_messages::Refusal;
use pg_record::{MAX_RECORD_BYTES, RecordFault, Session, read_record};
use pg_talk::Halt;
use std::alloc::Global;

/// Returns the moves that stand in a session, oldest first.
fn standing_moves(alloc: Global, session: &Session) -> Result<Vec<u16>, Memory>
    ensures { IfOk result (λ moves. moves.items ≡ standing session.now.events) }
{
    let mut moves = Vec::new(alloc);
    for i in 0..session.standing() {
        moves.push(session.move_at(i))?;
    }
    Ok(moves)
}

/// Returns the moves that stand in the record that a text says of a game.
fn read_moves(alloc: Global, game: &Game, text: &[u8]) -> Result<Vec<u16>, Halt>
    ensures read { IsReadAs (λ moves. moves.items)
        (moves_told (record_of game.now text.now)) result }
    ensures legal { IfOk result (λ moves. IsLegalPlay game.now (start game.now) moves.items) }
    ensures halts { IfErr result IsTextHalt }
{
    match read_record(alloc, game, text) {
        Ok(session) => Ok(standing_moves(alloc, &session)?),
        Err(RecordFault::Bad { number, line }) => {
            Err(Halt::Refused(Refusal::Record { number, line }))
        }
        Err(RecordFault::Memory) => Err(Halt::Stopped(Stop::Memory)),
    }
}

/// Returns the moves that stand in the record of a game under this name.
pub(crate) fn open_moves<F: Files>(
    alloc: Global,
    files: &mut F,
    name: &str,
    game: &Game,
) -> Result<Vec<u16>, Halt>
    ensures opened { Opens (λ moves. moves.items) (moves_held game.now)
        (F.told files.old).held name.now result }
    ensures legal { IfOk result (λ moves. IsLegalPlay game.now (start game.now) moves.items) }
    ensures halts { IfErr result IsRecordHalt }
    ensures causes { HaltCauses (IsAbsent (F.told files.old).held name.now)
        (F.told files.old).faults (F.told files.new).faults result }
    ensures kept { ReadsOnly (F.told files.old) (F.told files.new) }
{
    let text = read_whole(alloc, files, name, MAX_RECORD_BYTES)?;
    read_moves(alloc, game, &text)
}
