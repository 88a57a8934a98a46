//! A game between two people, who claim points by turns and take the last one back.
ghost use Rattle.std.specs.Prelude.{◌≡◌, [], IfOk, string_bytes};
ghost use Rattle.pg_playing.specs.Prelude.{IsMadeForGame, is_over};
ghost use Rattle.pg_playing.specs.Screens.{screen_text};
ghost use Rattle.pg_playing.specs.TableLog.{claimed, ending_of, next_by, place};
ghost use Rattle.pg_playing.specs.Seated.{IsSeated};

use crate::bout::{Bout, Next, Telling, Turn};
use crate::dialogue::reason_of;
use crate::note::Note;
use crate::screen::{answer, shown_of, shown_text};
use pg_base::Memory;
use pg_characters::Look;
use pg_game::{Game, Illegal, Judge};
use pg_messages::ReplyFault;
use pg_record::Session;
use std::alloc::Global;

/// A game at a table.
#[derive(Drop)]
pub struct Table<'a> {
    /// The game.
    pub game: &'a Game,
    /// How its board is shown.
    pub look: Look,
    /// What was played.
    pub session: Session<'a>,
    /// The judge of the game.
    pub judge: Judge,
}

/// Opens a table at the game's position.
///
/// # Errors
///
/// `Memory` if memory ran out.
pub fn open_table(alloc: Global, game: &Game, look: Look) -> Result<Table<'_>, Memory>
    ensures game { IfOk result (λ table. table.game.now ≡ game.now) }
    ensures look { IfOk result (λ table. table.look ≡ look) }
    ensures session { IfOk result
        (λ table. table.session ≡ record { game = game.now; events = [] }) }
    ensures judge { IfOk result (λ table. IsMadeForGame table.judge game.now) }
{
    let session = Session::open(alloc, game)?;
    let judge = Judge::new(alloc, game)?;
    Ok(Table {
        game,
        look,
        session,
        judge,
    })
}

/// Returns what came of a line that claims a point.
pub fn claimed(played: Result<(), Illegal>) -> Turn
    ensures { result ≡ claimed played }
{
    match played {
        Ok(()) => Turn::Moved,
        Err(why) => Turn::Noted(Note::Refused(reason_of(why))),
    }
}

impl<'a> Table<'a> {
    /// Returns the text that shows the board, and says who has won or whose turn it is.
    ///
    /// # Errors
    ///
    /// `Memory` if memory ran out.
    pub fn show_board(&mut self, alloc: Global) -> Result<Telling, Memory>
        requires { IsSeated self.old }
        ensures text { IfOk result (λ telling. string_bytes telling.text
            ≡ screen_text self.old.look self.old.session.game self.old.session.events
            (ending_of self.old.session.game self.old.session.events)) }
        ensures next { IfOk result (λ telling. telling.next ≡ next_by
            (is_over self.old.session.game
            (place self.old.session.game self.old.session.events))) }
        ensures kept { self.new ≡ self.old }
    {
        let ending = self.judge.over(self.game, &self.session.position());
        let shown = shown_of(&self.session, self.look);
        let text = shown_text(alloc, self.game, &shown, ending)?;
        let next = if ending.is_some() {
            Next::End
        } else {
            Next::Line
        };
        Ok(Telling { text, next })
    }
}

impl<'a> Bout for Table<'a> {
    ghost use Rattle.std.specs.Prelude.{◌-◌, List, length};
    ghost use Rattle.pg_playing.specs.Prelude.{Event, MAX_EVENTS};
    ghost use Rattle.pg_playing.specs.TableLog.{table_rules};
    ghost use Rattle.pg_playing.specs.Seated.{IsSeated};

    ghost state = { List Event };

    ghost at = { λ table. table.session.events };

    ghost rules = { λ table. table_rules table.look table.game.now };

    ghost moved = { IsSeated };

    ghost shown = { IsSeated };

    ghost room = { λ table. MAX_EVENTS - length table.session.events };

    ghost owed = { λ table. 0 };

    fn game(&self) -> &Game {
        self.game
    }

    fn tell(&mut self, alloc: Global) -> Result<Telling, Memory> {
        self.show_board(alloc)
    }

    fn claim(&mut self, _: Global, point: u16) -> Result<Turn, Memory> {
        Ok(claimed(self.session.play(point)))
    }

    fn undo(&mut self, _: Global) -> Result<Turn, Memory> {
        if self.session.back() {
            Ok(Turn::Moved)
        } else {
            Ok(Turn::Noted(Note::Refused(ReplyFault::NothingToTakeBack)))
        }
    }

    fn answer(&self, alloc: Global, note: Note) -> Result<String, Memory> {
        answer(alloc, self.game, &self.session.position(), note)
    }
}
