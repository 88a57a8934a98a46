//! What the lines of a record file say.
ghost use Rattle.pg_record.specs.RecordFile.{event_of};
ghost use Rattle.pg_record.specs.Views.{event_said};
ghost use Rattle.pg_text.specs.Faults.{Gives};

use crate::fault::Fault;
use pg_text::{LineError, Words, number};

/// What a line says.
#[derive(Clone, Copy, Debug, PartialEq, Eq)]
pub(crate) enum Said {
    /// The point of this number is played, if the game has it.
    Move(u32),
    /// The last standing move is taken back.
    Back,
}

/// What a line says: words stand after single spaces.
#[tactic(auto, unfolding(crate::specs::RecordFile::event_of))]
pub(crate) fn said_by(line: &[u8]) -> Result<Said, LineError<Fault>>
    ensures { Gives event_said result (event_of line.now) }
{
    let mut words = Words::of(line);
    let Some(name) = words.next() else {
        return Err(LineError::Fault(Fault::Form));
    };
    let Some(word) = words.next() else {
        if name == b"back".as_slice() {
            return Ok(Said::Back);
        }
        return Err(LineError::Fault(Fault::Form));
    };
    if words.next().is_some() || name != b"move".as_slice() {
        return Err(LineError::Fault(Fault::Form));
    }
    match number(word) {
        Some(v) => Ok(Said::Move(v)),
        None => Err(LineError::Fault(Fault::Number)),
    }
}
