//! The program's points, and what a line does in a game against it.
ghost use Rattle.std.specs.Prelude.{◌≡◌, ℕ, IfOk, string_bytes, true};
ghost use Rattle.pg_computer.specs.Prelude.{Budget, Game, IsBudget, IsSeated, Outcome};
ghost use Rattle.pg_computer.specs.Points.{Grows, IsReady};
ghost use Rattle.pg_computer.specs.VersusLog.{Shows, Takes, is_own};

use crate::choosing::choose;
use crate::points::{first_points, is_side, last_reply};
use crate::words::taken_text;
use pg_base::{Memory, Side};
use pg_game::Game;
use pg_messages::ReplyFault;
use pg_playing::{Bout, Next, Note, Table, Telling, Turn, claimed};
use pg_settle::{Budget, Finder};
use std::alloc::Global;

/// The program at a table.
#[derive(Drop)]
pub(crate) struct Opponent<'a, 'f, S> {
    /// The table.
    pub(crate) table: Table<'a>,
    /// The side that the program plays.
    pub(crate) side: Side,
    /// How much the finder may use for each move that is tried.
    pub(crate) budget: Budget,
    /// The finder.
    pub(crate) finder: &'f mut S,
}

/// Returns whether the game goes on and it is the program's turn.
fn is_own(table: &mut Table<'_>, side: Side) -> bool
    requires { IsSeated table.old }
    ensures own { result ≡ is_own side table.old.game.now table.old.session.events }
    ensures kept { table.new ≡ table.old }
{
    let position = table.session.position();
    table.judge.over(table.game, &position).is_none() && is_side(position.turn, side)
}

/// Claims a point for the program, and returns what is said of it.
fn take_own<S: Finder>(
    alloc: Global,
    table: &mut Table<'_>,
    side: Side,
    budget: Budget,
    finder: &mut S,
) -> Result<String, Memory>
    requires ready { IsReady table.old budget }
    requires own { is_own side table.old.game.now table.old.session.events ≡ true }
    ensures takes { IfOk result (λ text. (heard : ℕ)
        → Takes (S.brings finder.old) budget side table.old.game.now table.old.session.events heard
        (string_bytes text) (Shows table.new.session.events heard)) }
    ensures ready { IfOk result (λ _. IsReady table.new budget) }
    ensures grows { IfOk result (λ _. Grows table.old table.new) }
    ensures same { (other : Game) → (allowed : Budget) → (later : Outcome)
        → S.brings finder.new other allowed later
        → S.brings finder.old other allowed later }
{
    let position = table.session.position();
    let choice = choose(alloc, table.game, &position, budget, finder)?;
    let text = taken_text(alloc, table.game, choice)?;
    let Ok(()) = table.session.play(choice.point) else {
        unreachable!()
    };
    Ok(text)
}

impl<'a, 'f, S: Finder> Bout for Opponent<'a, 'f, S> {
    ghost use Rattle.std.specs.Prelude.{◌-◌, List, length};
    ghost use Rattle.pg_computer.specs.Prelude.{Event, MAX_EVENTS, MAX_HEARD};
    ghost use Rattle.pg_computer.specs.Points.{IsReady};
    ghost use Rattle.pg_computer.specs.VersusLog.{versus_rules};

    ghost state = { List Event };

    ghost at = { λ it. it.table.session.events };

    ghost rules = { λ it. versus_rules (S.brings it.finder.now) it.budget it.table.look it.side
        it.table.game.now };

    ghost moved = { λ it. IsReady it.table it.budget };

    ghost shown = { λ it. IsReady it.table it.budget };

    ghost room = { λ it. MAX_HEARD };

    ghost owed = { λ it. MAX_EVENTS - length it.table.session.events };

    fn game(&self) -> &Game {
        self.table.game
    }

    fn tell(&mut self, alloc: Global) -> Result<Telling, Memory> {
        if is_own(&mut self.table, self.side) {
            let (side, budget) = (self.side, self.budget);
            let text = take_own(alloc, &mut self.table, side, budget, self.finder)?;
            let next = Next::Text;
            Ok(Telling { text, next })
        } else {
            self.table.show_board(alloc)
        }
    }

    fn claim(&mut self, _: Global, point: u16) -> Result<Turn, Memory> {
        Ok(claimed(self.table.session.play(point)))
    }

    fn undo(&mut self, alloc: Global) -> Result<Turn, Memory> {
        let Some(last) = last_reply(self.table.game, self.side, &self.table.session) else {
            return Ok(Turn::Noted(Note::Refused(ReplyFault::NothingToTakeBack)));
        };
        let first = first_points(alloc, self.table.game, &self.table.session, last)?;
        self.table.session = first;
        Ok(Turn::Moved)
    }

    fn answer(&self, alloc: Global, note: Note) -> Result<String, Memory> {
        self.table.answer(alloc, note)
    }
}
