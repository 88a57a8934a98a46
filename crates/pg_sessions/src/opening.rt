//! The moves that are reviewed, from the name of a record.
ghost use Rattle.std.specs.Prelude.{◌≡◌, ◌≤◌, IfErr, IfOk, length};
ghost use Rattle.pg_sessions.specs.Prelude.{start, IsLegalPlay, ReadsOnly, standing, MAX_EVENTS};
ghost use Rattle.pg_sessions.specs.Prelude.{HaltCauses, IsLackingOne, IsReadAs, Opens, record_of};
ghost use Rattle.pg_sessions.specs.Review.{IsReviewHalt, IsTextHalt, moves_held, moves_told};

use pg_base::Memory;
use pg_game::Game;
use pg_io::{Files, Stop, read_whole};
use pg_messages::Refusal;
use pg_record::{MAX_RECORD_BYTES, RecordFault, Session, read_record};
use pg_talk::Halt;
use std::alloc::Global;

/// The number of the game's fault where Y claims several points a turn: such a game isn't reviewed.
pub const SEVERAL_A_TURN: u8 = 14;

/// The moves that stand in a session, oldest first.
fn standing_moves(alloc: Global, session: &Session) -> Result<Vec<u16>, Memory>
    ensures { IfOk result (λ moves. moves.items ≡ standing session.now.events) }
{
    let mut moves = Vec::new(alloc);
    for i in 0..session.standing() {
        moves.push(session.move_at(i))?;
    }
    Ok(moves)
}

/// The moves that stand in the record of a game that a text tells.
fn read_moves(alloc: Global, game: &Game, text: &[u8]) -> Result<Vec<u16>, Halt>
    ensures read { IsReadAs (λ moves. moves.items)
        (moves_told (record_of game.now text.now)) result }
    ensures legal { IfOk result (λ moves. IsLegalPlay game.now (start game.now) moves.items) }
    ensures few { IfOk result (λ moves. length moves.items ≤ MAX_EVENTS) }
    ensures halts { IfErr result IsTextHalt }
{
    match read_record(alloc, game, text) {
        Ok(session) => Ok(standing_moves(alloc, &session)?),
        Err(RecordFault::Bad { number, line }) => {
            Err(Halt::Refused(Refusal::Record { number, line }))
        }
        Err(RecordFault::Memory) => Err(Halt::Stopped(Stop::Memory)),
    }
}

/// The moves that stand in the record of a game under this name. The record of a game in which Y
/// claims several points a turn isn't opened.
pub(crate) fn open_moves<F: Files>(
    alloc: Global,
    files: &mut F,
    name: &str,
    game: &Game,
) -> Result<Vec<u16>, Halt>
    ensures opened { Opens (λ moves. moves.items) (moves_held game.now)
        (F.told files.old).held name.now result }
    ensures single { IfOk result (λ _. game.now.bias ≡ 1) }
    ensures legal { IfOk result (λ moves. IsLegalPlay game.now (start game.now) moves.items) }
    ensures few { IfOk result (λ moves. length moves.items ≤ MAX_EVENTS) }
    ensures halts { IfErr result IsReviewHalt }
    ensures causes { HaltCauses
        (IsLackingOne (moves_held game.now) (F.told files.old).held name.now)
        (F.told files.old).faults (F.told files.new).faults result }
    ensures kept { ReadsOnly (F.told files.old) (F.told files.new) }
{
    if game.bias > 1 {
        return Err(Halt::Refused(Refusal::Game {
            number: SEVERAL_A_TURN,
            line: 0,
        }));
    }
    let text = read_whole(alloc, files, name, MAX_RECORD_BYTES)?;
    read_moves(alloc, game, &text)
}
