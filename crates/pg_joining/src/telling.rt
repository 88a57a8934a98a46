//! Printing a text at the end of a run.
ghost use Rattle.pg_joining.specs.Telling.{EndsSaying};

use pg_io::Console;
use pg_messages::WRITE_FAILED;

/// Prints a text, and returns this status; if that fails, that of a failed write.
pub(crate) fn tell_text<C: Console>(console: &mut C, text: &str, status: u8) -> u8
    ensures { EndsSaying text.now status (C.told console.old) (C.told console.new) result }
{
    match console.say(text.as_bytes()) {
        Ok(()) => status,
        Err(_) => WRITE_FAILED,
    }
}
