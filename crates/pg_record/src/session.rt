//! Sessions.
ghost use Rattle.std.specs.Prelude.{◌≡◌, ◌+◌, ◌<◌, ◌++◌, [], ◌∷◌, length, get_or, nat_lt, is_ok};
ghost use Rattle.std.specs.Prelude.{IfOk, if◌then◌else◌};
ghost use Rattle.pg_record.specs.Prelude.{start, IsPosition, judged_move, IsLegalPlay};
ghost use Rattle.pg_record.specs.Replay.{replay, IsRecord};
ghost use Rattle.pg_record.specs.Session.{refusal_of};

use crate::event::{Event, MAX_EVENTS};
use crate::table::{Table, open_table};
use pg_base::Memory;
use pg_game::{Game, Illegal, Position};
use std::alloc::Global;
use std::marker::Model;

/// A session: moves are played from a game's position and taken back, and each event is kept in
/// order.
///
/// The standing moves are those that aren't taken back. A game on lines is played on one board, on
/// which moves are made and undone; of a switching game the standing moves are played again from
/// its position.
#[derive(Debug, Drop)]
pub struct Session<'a> {
    game: &'a Game,
    events: Vec<Event>,
    /// The standing moves, oldest first.
    moves: Vec<u16>,
    table: Table<'a>,
}

/// The game and the events.
impl<'a> Model for Session<'a> {
    ghost use Rattle.std.specs.Vec.{vec_capacity};
    ghost use Rattle.pg_record.specs.Session.{Recorded, IsSession};
    ghost use Rattle.pg_record.specs.SessionCode.{recorded_code};

    ghost Value = { Recorded };

    ghost coded = { recorded_code };

    ghost view = { λ a. record { game = a.game.now; events = a.events.items } };

    ghost invariant = { λ a. IsSession a.game.now a.events.items a.moves.items a.table
        (vec_capacity a.events) (vec_capacity a.moves) };
}

impl<'a> Session<'a> {
    /// The session without events. It reserves room for all events, so that no later call takes
    /// memory.
    ///
    /// # Errors
    ///
    /// `Memory` where no memory is found.
    pub fn open(alloc: Global, g: &'a Game) -> Result<Session<'a>, Memory>
        ensures { IfOk result (λ s. s ≡ record { game = g.now; events = [] }) }
    {
        let table = open_table(alloc, g)?;
        let events = Vec::with_capacity(alloc, MAX_EVENTS as usize)?;
        let moves = Vec::with_capacity(alloc, MAX_EVENTS as usize)?;
        Ok(Session {
            game: g,
            events,
            moves,
            table,
        })
    }

    /// Plays the point for the side to move.
    ///
    /// # Errors
    ///
    /// As `Judge::play` at the position: `Range` where the game has no such point, else `Over`
    /// where it is over, else `Taken` where the point isn't free. Nothing changes then.
    pub fn play(&mut self, v: u16) -> Result<(), Illegal>
        requires { length self.old.events < MAX_EVENTS }
        ensures result { result ≡ refusal_of
            (judged_move self.old.game (replay self.old.game self.old.events).position v) }
        ensures events { self.new.events
            ≡ (if is_ok result then self.old.events ++ Event.Play v ∷ [] else self.old.events) }
        ensures game { self.new.game ≡ self.old.game }
    {
        self.table.play(self.game, self.moves.as_slice(), v)?;
        let Ok(()) = self.moves.push(v) else {
            unreachable!()
        };
        let Ok(()) = self.events.push(Event::Play(v)) else {
            unreachable!()
        };
        Ok(())
    }

    /// Takes the last standing move back, and tells whether one stood. Where none does, nothing
    /// changes.
    pub fn back(&mut self) -> bool
        requires { length self.old.events < MAX_EVENTS }
        ensures result { result ≡ nat_lt 0 (length (replay self.old.game self.old.events).moves) }
        ensures events { self.new.events
            ≡ (if result then self.old.events ++ Event.Back ∷ [] else self.old.events) }
        ensures game { self.new.game ≡ self.old.game }
    {
        if self.moves.is_empty() {
            return false;
        }
        self.table.undo(self.game, self.moves.as_slice());
        self.moves.truncate(self.moves.len() - 1);
        let Ok(()) = self.events.push(Event::Back) else {
            unreachable!()
        };
        true
    }

    /// How many events there is still room for.
    pub fn room(&self) -> u32
        ensures { result + length self.now.events ≡ MAX_EVENTS }
    {
        MAX_EVENTS - self.events.len() as u32
    }

    /// How many moves stand.
    pub fn standing(&self) -> u32
        ensures { result ≡ length (replay self.now.game self.now.events).moves }
    {
        self.moves.len() as u32
    }

    /// The point of the standing move of this number, counted from 0.
    pub fn move_at(&self, i: u32) -> u16
        requires { i < length (replay self.now.game self.now.events).moves }
        ensures { result ≡ get_or (replay self.now.game self.now.events).moves i 0 }
    {
        self.moves[i as usize]
    }

    /// The position after the standing moves. They are a legal play from the game's position.
    pub fn position(&self) -> Position
        ensures exact { result ≡ (replay self.now.game self.now.events).position }
        ensures fits { IsPosition self.now.game result }
        ensures legal { IsLegalPlay self.now.game (start self.now.game)
            (replay self.now.game self.now.events).moves }
    {
        self.table.position(self.game, self.moves.as_slice())
    }

    /// The events in order.
    pub(crate) fn events(&self) -> &[Event]
        ensures exact { result.now ≡ self.now.events }
        ensures allowed { IsRecord self.now.game result.now }
    {
        self.events.as_slice()
    }
}
