//! Recording a session of a game, and storing its record.
ghost use Rattle.std.specs.Prelude.{◌≡◌, [], ◌∷◌, Err, IfErr, IfOk, ⊤};
ghost use Rattle.pg_sessions.specs.Prelude.{recorded_text, DONE, IsGameLacking, game_held, Does};
ghost use Rattle.pg_sessions.specs.Prelude.{BothCauses, IsWriteHalt, QuietsBy, Runs, Delivers};
ghost use Rattle.pg_sessions.specs.Prelude.{StoresAt, Refused};
ghost use Rattle.pg_sessions.specs.Recording.{GivesRecord, GivesSession, Records, RecordsGame};
ghost use Rattle.pg_sessions.specs.Recording.{record_file};
ghost use Rattle.pg_sessions.specs.SessionLog.{standing_count};

use crate::dialogue::{Close, hear_session};
use pg_game::Game;
use pg_io::{Console, Files};
use pg_messages::{Message, OUT_OF_REPLIES};
use pg_record::{Session, print_record};
use pg_talk::{Halt, deliver, open_game};
use std::alloc::Global;

/// Stores the record of a session, and says how many moves stand.
fn store_record<F: Files, C: Console>(
    alloc: Global,
    session: &Session<'_>,
    name: &str,
    files: &mut F,
    console: &mut C,
) -> Result<u8, Halt>
    ensures delivered { Does (Delivers (record_file name.now session.now.events)
        (recorded_text (standing_count session.now.game session.now.events) ∷ []))
        (F.told files.old) (F.told files.new) (C.told console.old) (C.told console.new) result }
    ensures files { StoresAt (name.now ∷ []) (F.told files.old) (F.told files.new) }
    ensures causes { BothCauses ⊥ (F.told files.old) (F.told files.new)
        (C.told console.old) (C.told console.new) result }
    ensures done { IfOk result (λ status. status ≡ DONE) }
    ensures halts { IfErr result IsWriteHalt }
{
    let text = print_record(alloc, session)?;
    deliver(
        name,
        &text,
        Message::Recorded(session.standing()),
        None,
        files,
        console,
    )
}

/// Records a session of a game.
fn record_game<F: Files, C: Console>(
    alloc: Global,
    game: &Game,
    name: &str,
    files: &mut F,
    console: &mut C,
) -> Result<u8, Halt>
    ensures recorded { Does (RecordsGame game.now name.now)
        (F.told files.old) (F.told files.new) (C.told console.old) (C.told console.new) result }
    ensures files { StoresAt (name.now ∷ []) (F.told files.old) (F.told files.new) }
    ensures causes { BothCauses ⊥ (F.told files.old) (F.told files.new)
        (C.told console.old) (C.told console.new) result }
    ensures gives { GivesSession result }
{
    let mut session = Session::open(alloc, game)?;
    match hear_session(&mut session, console)? {
        Close::Ended => store_record(alloc, &session, name, files, console),
        Close::OutOfReplies => Ok(OUT_OF_REPLIES),
    }
}

/// Records a session of the game under one name: moves of both sides are heard, played and taken
/// back, and at the end the record is stored under another name.
///
/// Ends with 0 where the record was stored, and with 9 where so many lines were refused that no
/// more are heard; then nothing is stored.
///
/// # Errors
///
/// `Halt::Refused` where the game file has a fault; then nothing is said or stored. `Halt::Stopped`
/// where a call on files or the console has failed, the game's name isn't held, or memory is
/// wanting.
pub fn record<F: Files, C: Console>(
    alloc: Global,
    game: &str,
    name: &str,
    files: &mut F,
    console: &mut C,
) -> Result<u8, Halt>
    ensures ran { Runs (λ held refusal. game_held (held game.now) ≡ Err (Refused refusal))
        (λ held. Records (game_held (held game.now)) name.now)
        (F.told files.old) (F.told files.new) (C.told console.old) (C.told console.new) result }
    ensures causes { BothCauses (IsGameLacking (F.told files.old).held game.now)
        (F.told files.old) (F.told files.new) (C.told console.old) (C.told console.new) result }
    ensures quiet { QuietsBy ⊤ ⊤ (C.told console.old) (C.told console.new) result }
    ensures files { StoresAt (name.now ∷ []) (F.told files.old) (F.told files.new) }
    ensures gives { GivesRecord result }
{
    let game = open_game(alloc, files, game)?;
    record_game(alloc, &game, name, files, console)
}
