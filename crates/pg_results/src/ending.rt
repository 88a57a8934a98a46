//! The end of a run that was refused or stopped.
ghost use Rattle.pg_results.specs.Ending.{Ends};

use pg_io::{Console, Stop};
use pg_messages::{Message, NO_MEMORY, READ_FAILED, WRITE_FAILED};
use pg_talk::{Halt, say};

/// Prints the refusal that ended a run, and returns its status; if printing fails, that of a failed
/// write. Of a run that was stopped it prints nothing, and returns the status of the stop.
pub fn end_early<C: Console>(console: &mut C, halt: Halt) -> u8
    ensures { Ends halt (C.told console.old) (C.told console.new) result }
{
    match halt {
        Halt::Refused(refusal) => match say(console, Message::Refused(refusal)) {
            Ok(()) => refusal.status(),
            Err(_) => WRITE_FAILED,
        },
        Halt::Stopped(Stop::Read) => READ_FAILED,
        Halt::Stopped(Stop::Write) => WRITE_FAILED,
        Halt::Stopped(Stop::Memory) => NO_MEMORY,
    }
}
