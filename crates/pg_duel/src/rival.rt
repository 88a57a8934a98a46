//! What a line does in a game against the program, and what is shown.
use crate::words::{reply_text, seat_screen};
use pg_base::Memory;
use pg_characters::Look;
use pg_check::Checked;
use pg_game::Game;
use pg_messages::ReplyFault;
use pg_opponent::Seat;
use pg_player::OpenFault;
use pg_playing::{Bout, Next, Note, Telling, Turn, claimed};
use std::alloc::Global;

/// The program at its seat, and what it plays by.
#[derive(Drop)]
pub(crate) struct Rival<'a> {
    /// The certificate, and its game.
    pub(crate) checked: Checked<'a>,
    /// How the board is shown.
    pub(crate) look: Look,
    /// The seat.
    pub(crate) seat: Seat<'a>,
}

impl<'a> Bout for Rival<'a> {
    ghost use Rattle.pg_duel.specs.Prelude.{MAX_HEARD, Sitting, sitting_of};
    ghost use Rattle.pg_duel.specs.DuelLog.{duel_rules};
    ghost use Rattle.pg_duel.specs.Seats.{Sits, Stays};

    ghost state = { Sitting };

    ghost at = { λ rival. sitting_of rival.seat };

    ghost rules = { λ rival. duel_rules rival.look rival.checked.game.now rival.seat.player.claim };

    ghost moved = { Sits };

    ghost shown = { Stays };

    ghost room = { λ rival. MAX_HEARD };

    ghost owed = { λ rival. 0 };

    fn game(&self) -> &Game {
        self.checked.game
    }

    fn tell(&mut self, alloc: Global) -> Result<Telling, Memory> {
        let ending = self.seat.player.outcome();
        let text = seat_screen(alloc, self.checked.game, &self.seat, self.look, ending)?;
        let next = if ending.is_some() {
            Next::End
        } else {
            Next::Line
        };
        Ok(Telling { text, next })
    }

    fn claim(&mut self, _: Global, point: u16) -> Result<Turn, Memory> {
        let played = self.seat.reply(point)?;
        Ok(claimed(played))
    }

    fn undo(&mut self, alloc: Global) -> Result<Turn, Memory> {
        let side = self.seat.player.side();
        match self.seat.replies.as_slice() {
            [others @ .., _] => match Seat::again(alloc, self.checked, side, others) {
                Ok(again) => {
                    self.seat = again;
                    Ok(Turn::Moved)
                }
                Err(OpenFault::NoClaim) => unreachable!(),
                Err(OpenFault::Memory) => Err(Memory),
            },
            [] => Ok(Turn::Noted(Note::Refused(ReplyFault::NothingToTakeBack))),
        }
    }

    fn answer(&self, alloc: Global, note: Note) -> Result<String, Memory> {
        reply_text(
            alloc,
            self.checked.game,
            &self.seat.session.position(),
            note,
        )
    }
}
