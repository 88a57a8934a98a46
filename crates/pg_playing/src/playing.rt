//! A game from its file, played at a table, and its record.
ghost use Rattle.std.specs.Prelude.{◌≡◌, [], ◌∷◌, Err, IfErr, IfOk, option_copied, ⊤};
ghost use Rattle.pg_playing.specs.Prelude.{BothCauses, DONE, Delivers, Does, IsGameLacking};
ghost use Rattle.pg_playing.specs.Prelude.{IsWriteHalt, QuietsBy, Refused, Runs, StoresAt};
ghost use Rattle.pg_playing.specs.Prelude.{game_held, record_file, recorded_text, standing_count};
ghost use Rattle.pg_playing.specs.Playing.{GivesPlay, GivesTable, Plays, PlaysGame, Stores};
ghost use Rattle.pg_playing.specs.Playing.{names_of, turned_to};

use crate::dialogue::play_to_the_end;
use crate::table::open_table;
use pg_base::Side;
use pg_characters::Look;
use pg_game::Game;
use pg_io::{Console, Files};
use pg_messages::{DONE, Message};
use pg_record::{Session, print_record};
use pg_talk::{Halt, deliver, open_game};
use std::alloc::Global;

/// What is to be played, and how.
#[derive(Clone, Copy)]
pub struct Order<'a> {
    /// The path of the game.
    pub game: &'a str,
    /// The side that begins, if it isn't to be the game's.
    pub turn: Option<Side>,
    /// The path under which the record is stored, if it is to be.
    pub record: Option<&'a str>,
    /// How the board is shown.
    pub look: Look,
}

/// Returns the game in which this side begins, if one is named.
pub fn turned_to(game: Game, turn: Option<Side>) -> Game
    ensures { result ≡ turned_to game turn }
{
    let mut game = game;
    if let Some(turn) = turn {
        game.turn = turn;
    }
    game
}

/// Stores the record of a session under a path, and prints how many points stand.
fn store_record<F: Files, C: Console>(
    alloc: Global,
    session: &Session<'_>,
    path: &str,
    files: &mut F,
    console: &mut C,
) -> Result<u8, Halt>
    ensures stored { Does (Delivers (record_file path.now session.now.events)
        (recorded_text (standing_count session.now.game session.now.events) ∷ []))
        (F.told files.old) (F.told files.new) (C.told console.old) (C.told console.new) result }
    ensures files { StoresAt (path.now ∷ []) (F.told files.old) (F.told files.new) }
    ensures causes { BothCauses ⊥ (F.told files.old) (F.told files.new)
        (C.told console.old) (C.told console.new) result }
    ensures done { IfOk result (λ status. status ≡ DONE) }
    ensures halts { IfErr result IsWriteHalt }
{
    let text = print_record(alloc, session)?;
    let message = Message::Recorded(session.standing());
    deliver(path, &text, message, None, files, console)
}

/// Stores the record of a session under a path, if there is one, and prints how many points stand.
///
/// # Errors
///
/// `Halt::Stopped` if a call on files or the console has failed, or memory ran out.
pub fn store<F: Files, C: Console>(
    alloc: Global,
    session: &Session<'_>,
    path: Option<&str>,
    files: &mut F,
    console: &mut C,
) -> Result<u8, Halt>
    ensures stored { Does (Stores (option_copied path.entry) session.now.game session.now.events)
        (F.told files.old) (F.told files.new) (C.told console.old) (C.told console.new) result }
    ensures files { StoresAt (names_of (option_copied path.entry)) (F.told files.old)
        (F.told files.new) }
    ensures causes { BothCauses ⊥ (F.told files.old) (F.told files.new)
        (C.told console.old) (C.told console.new) result }
    ensures done { IfOk result (λ status. status ≡ DONE) }
    ensures halts { IfErr result IsWriteHalt }
{
    match path {
        Some(path) => store_record(alloc, session, path, files, console),
        None => Ok(DONE),
    }
}

/// Plays a game, and stores its record.
fn play_game<F: Files, C: Console>(
    alloc: Global,
    game: &Game,
    order: Order<'_>,
    files: &mut F,
    console: &mut C,
) -> Result<u8, Halt>
    ensures played { Does (PlaysGame order.entry.look game.now (option_copied order.entry.record))
        (F.told files.old) (F.told files.new) (C.told console.old) (C.told console.new) result }
    ensures files { StoresAt (names_of (option_copied order.entry.record))
        (F.told files.old) (F.told files.new) }
    ensures causes { BothCauses ⊥ (F.told files.old) (F.told files.new)
        (C.told console.old) (C.told console.new) result }
    ensures gives { GivesTable result }
{
    let mut table = open_table(alloc, game, order.look)?;
    play_to_the_end(alloc, &mut table, console)?;
    store(alloc, &table.session, order.record, files, console)
}

/// Plays a game at a table: shows its board, hears which points are claimed and taken back, and
/// answers each line. It ends with 0 when the game is over or left or the input ends; then its
/// record is stored, if a path for it is given.
///
/// # Errors
///
/// `Halt::Refused` if the game's file is invalid; then nothing is printed or stored.
/// `Halt::Stopped` if a call on files or the console has failed, the game's file doesn't exist, or
/// memory ran out.
pub fn play<F: Files, C: Console>(
    alloc: Global,
    order: Order<'_>,
    files: &mut F,
    console: &mut C,
) -> Result<u8, Halt>
    ensures ran { Runs
        (λ held refusal. game_held (held order.entry.game.now) ≡ Err (Refused refusal))
        (λ held. Plays order.entry.look order.entry.turn (game_held (held order.entry.game.now))
        (option_copied order.entry.record))
        (F.told files.old) (F.told files.new) (C.told console.old) (C.told console.new) result }
    ensures causes { BothCauses (IsGameLacking (F.told files.old).held order.entry.game.now)
        (F.told files.old) (F.told files.new) (C.told console.old) (C.told console.new) result }
    ensures quiet { QuietsBy ⊤ ⊤ (C.told console.old) (C.told console.new) result }
    ensures files { StoresAt (names_of (option_copied order.entry.record))
        (F.told files.old) (F.told files.new) }
    ensures gives { GivesPlay result }
{
    let said = open_game(alloc, files, order.game)?;
    let game = turned_to(said, order.turn);
    play_game(alloc, &game, order, files, console)
}
