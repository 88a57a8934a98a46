//! A console, to which texts are said and from which lines are heard.
ghost use Rattle.std.specs.Prelude.{◌≡◌, ◌<◌, length};
ghost use Rattle.pg_io.specs.Causes.{BlamesReads, BlamesWrites};
ghost use Rattle.pg_io.specs.Console.{ConsoleTold, Says, Hears};

use crate::entry::Heard;
use crate::files::Failed;

/// A console with a log of what was said to it and heard from it.
///
/// An implementation tells its unread input and its log, or neither, as the console of the system
/// does; which of both never changes. Two numbers of faults are always known: how many calls of
/// `hear` have failed, and how many of `say`. A call that answers Ok leaves both as they were.
pub trait Console {
    /// All that is known of the console.
    ghost told: { Self → ConsoleTold };

    /// Says all the bytes, and adds them to the log.
    ///
    /// `Failed` means a fault of writing; then nothing is added.
    fn say(&mut self, bytes: &[u8]) -> Result<(), Failed>
        ensures said { Says (told self.old).log (told self.new).log bytes.now result }
        ensures cause { BlamesWrites (told self.old).faults (told self.new).faults result }
        ensures left { (told self.new).left ≡ (told self.old).left };

    /// Hears a line, and adds to the log what was heard.
    ///
    /// A line ends with its line feed or with the input, and its bytes without the line feed are
    /// moved to the front of the buffer. Where as many bytes as the buffer is long have no line
    /// feed among them, they are taken and the answer is `Long`; what follows is heard as a further
    /// line.
    ///
    /// `Failed` means a fault of reading; then nothing is added.
    fn hear(&mut self, buf: &mut [u8]) -> Result<Heard, Failed>
        requires { 0 < length buf.old }
        ensures heard { Hears (told self.old).log (told self.new).log
            (told self.old).left (told self.new).left buf.new result }
        ensures cause { BlamesReads (told self.old).faults (told self.new).faults result };
}
