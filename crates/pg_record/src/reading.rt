//! A session from the bytes of its file.
ghost use Rattle.std.specs.Prelude.{◌≡◌, ◌+◌, ◌<◌, ◌≤◌, [], length, Some, IfOk};
ghost use Rattle.pg_record.specs.declared.event.TheConstants.{MAX_EVENTS};
ghost use Rattle.pg_record.specs.RecordFile.{after, event_faults, record_of, with_one};
ghost use Rattle.pg_record.specs.Views.{event_said, number_of};
ghost use Rattle.pg_record.specs.declared.fault.TheConstants.{MAX_RECORD_BYTES};
ghost use Rattle.pg_text.specs.Faults.{least, reading, Becomes, IsReadAs};

use crate::fault::{Fault, MAX_RECORD_BYTES};
use crate::line::{Said, said_by};
use crate::session::Session;
use pg_base::Memory;
use pg_game::{Game, Judge};
use pg_text::{FileError, LineError, Lines};
use std::alloc::Global;

/// The fault of one event more where there are as many as there may be: that the event can't be
/// made counts first.
fn fault_without_room(
    alloc: Global,
    g: &Game,
    session: &Session,
    said: Said,
) -> Result<Fault, Memory>
    requires game { session.now.game ≡ g.now }
    requires full { MAX_EVENTS ≤ length session.now.events }
    ensures { IfOk result
        (λ fault. least (event_faults g.now session.now.events (event_said said)) ≡ Some fault) }
{
    match said {
        Said::Move(v) => {
            if v >= u32::from(g.points()) {
                return Ok(Fault::Move);
            }
            let mut judge = Judge::new(alloc, g)?;
            let position = session.position();
            match judge.play(g, &position, v as u16) {
                Ok(_) => Ok(Fault::Limit),
                Err(_) => Ok(Fault::Move),
            }
        }
        Said::Back => {
            if session.standing() == 0 {
                Ok(Fault::Nothing)
            } else {
                Ok(Fault::Limit)
            }
        }
    }
}

/// Adds one event where there is room for it.
fn add(g: &Game, session: &mut Session, said: Said) -> Result<(), LineError<Fault>>
    requires game { session.old.game ≡ g.now }
    requires room { length session.old.events < MAX_EVENTS }
    ensures events { Becomes result session.new.events
        (with_one g.now session.old.events (event_said said)) }
    ensures game { session.new.game ≡ session.old.game }
{
    match said {
        Said::Move(v) => {
            if v >= u32::from(g.points()) {
                return Err(LineError::Fault(Fault::Move));
            }
            match session.play(v as u16) {
                Ok(()) => Ok(()),
                Err(_) => Err(LineError::Fault(Fault::Move)),
            }
        }
        Said::Back => {
            if session.back() {
                Ok(())
            } else {
                Err(LineError::Fault(Fault::Nothing))
            }
        }
    }
}

/// Reads the next line.
#[tactic(auto, unfolding(crate::specs::RecordFile::after))]
fn read_line(
    alloc: Global,
    g: &Game,
    session: &mut Session,
    line: &[u8],
) -> Result<(), LineError<Fault>>
    requires { session.old.game ≡ g.now }
    ensures events { Becomes result session.new.events (after g.now session.old.events line.now) }
    ensures game { session.new.game ≡ session.old.game }
{
    let said = said_by(line)?;
    if session.room() == 0 {
        let fault = fault_without_room(alloc, g, session, said)?;
        return Err(LineError::Fault(fault));
    }
    add(g, session, said)
}

/// What the lines after the first say.
fn read_events<'a>(alloc: Global, g: &'a Game, lines: Lines) -> Result<Session<'a>, FileError>
    requires { length lines ≤ MAX_RECORD_BYTES }
    ensures read { IsReadAs number_of (λ s. s.events) result
        (reading (after g.now) 2 [] lines.entry) }
    ensures game { IfOk result (λ s. s.game ≡ g.now) }
{
    let mut session = Session::open(alloc, g)?;
    let mut number = 1;
    for line in lines {
        number += 1;
        if let Err(error) = read_line(alloc, g, &mut session, line) {
            return Err(error.at(number));
        }
    }
    Ok(session)
}

/// The session that a record file tells of the game, or the first fault with the number of its
/// line.
///
/// The file is strict: words stand after single spaces, no line is skipped, and the last line may
/// lack its line feed. Where a line has several faults, the one with the least number is given.
///
/// # Errors
///
/// `Bad` with the number of the fault: 1 for a file of more than `MAX_RECORD_BYTES` bytes, with
/// line 0, 2 for another first line, 3 for a line that is neither `move` with one word nor `back`,
/// 4 for a word that is no number, 5 for a move that `Session::play` refuses, 6 for `back` where no
/// move stands, 7 for more events than `crate::MAX_EVENTS`. `Memory` where no memory is found.
#[tactic(auto, unfolding(crate::specs::RecordFile::record_of))]
pub fn read_record<'a>(alloc: Global, g: &'a Game, bytes: &[u8]) -> Result<Session<'a>, FileError>
    ensures read { IsReadAs number_of (λ s. s.events) result (record_of g.now bytes.now) }
    ensures game { IfOk result (λ s. s.game ≡ g.now) }
{
    if bytes.len() > MAX_RECORD_BYTES {
        return Err(FileError::at_line(Fault::Size, 0));
    }
    let mut lines = Lines::of(bytes);
    let Some(first) = lines.next() else {
        return Err(FileError::at_line(Fault::Header, 1));
    };
    if first != b"posgame-record 1".as_slice() {
        return Err(FileError::at_line(Fault::Header, 1));
    }
    read_events(alloc, g, lines)
}
