//! A game from its file, played against the program, and its record.
ghost use Rattle.std.specs.Prelude.{◌≡◌, Err, option_copied, ⊤};
ghost use Rattle.pg_computer.specs.Prelude.{BothCauses, Does, GivesPlay, GivesTable, IsBudget};
ghost use Rattle.pg_computer.specs.Prelude.{IsGameLacking, QuietsBy, Refused, Runs, StoresAt};
ghost use Rattle.pg_computer.specs.Prelude.{game_held, names_of};
ghost use Rattle.pg_computer.specs.Versus.{PlaysVersus, Versus};

use crate::moving::Opponent;
use pg_base::Side;
use pg_characters::Look;
use pg_game::Game;
use pg_io::{Console, Files};
use pg_playing::{open_table, play_to_the_end, store, turned_to};
use pg_settle::{Budget, Finder};
use pg_talk::{Halt, open_game};
use std::alloc::Global;

/// What is to be played against the program, and how.
#[derive(Clone, Copy)]
pub struct VersusOrder<'a> {
    /// The path of the game.
    pub game: &'a str,
    /// The side that the program plays.
    pub side: Side,
    /// The side that begins, if it isn't to be the game's.
    pub turn: Option<Side>,
    /// How much the finder may use for each move that is tried.
    pub budget: Budget,
    /// The path under which the record is stored, if it is to be.
    pub record: Option<&'a str>,
    /// How the board is shown.
    pub look: Look,
}

/// Plays a game, and stores its record.
fn play_game<F: Files, C: Console, S: Finder>(
    alloc: Global,
    game: &Game,
    order: VersusOrder<'_>,
    finder: &mut S,
    files: &mut F,
    console: &mut C,
) -> Result<u8, Halt>
    requires { IsBudget order.budget }
    ensures played { Does (PlaysVersus (S.brings finder.old) order.entry.budget order.entry.look
        order.entry.side game.now (option_copied order.entry.record))
        (F.told files.old) (F.told files.new) (C.told console.old) (C.told console.new) result }
    ensures files { StoresAt (names_of (option_copied order.entry.record))
        (F.told files.old) (F.told files.new) }
    ensures causes { BothCauses ⊥ (F.told files.old) (F.told files.new)
        (C.told console.old) (C.told console.new) result }
    ensures gives { GivesTable result }
{
    let table = open_table(alloc, game, order.look)?;
    let mut opponent = Opponent {
        table,
        side: order.side,
        budget: order.budget,
        finder,
    };
    play_to_the_end(alloc, &mut opponent, console)?;
    store(alloc, &opponent.table.session, order.record, files, console)
}

/// Plays a game against the person at the console: on its turns the program claims one legal point
/// after the other, and says of each whether it is proved to keep the value of the position; and it
/// hears which points the person claims and takes back, and answers each line. It ends with 0 when
/// the game is over or left or the input ends; then its record is stored, if a path for it is
/// given.
///
/// The finder isn't trusted: a point is said to be proved only if certificates that the judge
/// accepts, or two forests in a switching game, show its value and that no move has a better one.
///
/// # Errors
///
/// `Halt::Refused` if the game's file is invalid; then nothing is printed or stored.
/// `Halt::Stopped` if a call on files or the console has failed, the game's file doesn't exist, or
/// memory ran out.
pub fn versus<F: Files, C: Console, S: Finder>(
    alloc: Global,
    order: VersusOrder<'_>,
    finder: &mut S,
    files: &mut F,
    console: &mut C,
) -> Result<u8, Halt>
    requires { IsBudget order.budget }
    ensures ran { Runs
        (λ held refusal. game_held (held order.entry.game.now) ≡ Err (Refused refusal))
        (λ held. Versus (S.brings finder.old) order.entry.budget order.entry.look order.entry.side
        order.entry.turn (game_held (held order.entry.game.now))
        (option_copied order.entry.record))
        (F.told files.old) (F.told files.new) (C.told console.old) (C.told console.new) result }
    ensures causes { BothCauses (IsGameLacking (F.told files.old).held order.entry.game.now)
        (F.told files.old) (F.told files.new) (C.told console.old) (C.told console.new) result }
    ensures quiet { QuietsBy ⊤ ⊤ (C.told console.old) (C.told console.new) result }
    ensures files { StoresAt (names_of (option_copied order.entry.record))
        (F.told files.old) (F.told files.new) }
    ensures gives { GivesPlay result }
{
    let said = open_game(alloc, files, order.game)?;
    let game = turned_to(said, order.turn);
    play_game(alloc, &game, order, finder, files, console)
}
