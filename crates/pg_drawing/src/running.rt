//! The top call.
ghost use Rattle.std.specs.Prelude.{◌≡◌, [], map, string_bytes};
ghost use Rattle.pg_drawing.specs.Prelude.{Contains, Grows, ReadsOnly, HasCause};
ghost use Rattle.pg_drawing.specs.Orders.{order_of};
ghost use Rattle.pg_drawing.specs.Runs.{EndsWith, IsLacking, IsStopped, Ran, statuses_of};

use crate::telling::tell;
use pg_captions::Look;
use pg_io::{Console, Files, Stop};
use pg_messages::{NO_MEMORY, READ_FAILED, WRITE_FAILED};
use pg_talk::{Halt, say_text};
use std::alloc::Global;

/// Says a text, and gives the status that goes with it.
pub fn end_with<C: Console>(console: &mut C, text: &str, status: u8) -> u8
    ensures { EndsWith text.now status (C.told console.old) (C.told console.new) result }
{
    match say_text(console, text) {
        Ok(()) => status,
        Err(_) => WRITE_FAILED,
    }
}

/// Says the picture that the words ask for, and gives the status. `GAME` is the file of a game of
/// any kind, which is drawn; `GAME CERTIFICATE` draws the root of the certificate's first claim,
/// `GAME CERTIFICATE K` node K of that claim, and `GAME CERTIFICATE C.K` node K of claim C, all
/// counted from 0. A claim of a connectivity game has one node, number 0. The certificate is
/// checked first: where it isn't valid its first faulty node is drawn, with the fault. `look` says
/// whether the picture has numbers, lines and a legend, and at what width it is shown.
///
/// - 0: the picture is said: of a game, or of a node of a valid certificate.
/// - 2: the words have no meaning, or the certificate is valid and has no such node.
/// - 3: the game file has a fault.
/// - 4: the certificate file has a fault, or the certificate isn't valid for the game: then the
///   picture is that of its first faulty node.
/// - 5: a call that reads has failed, or a name isn't held; nothing is said.
/// - 6: a call that writes has failed; nothing is said.
/// - 7: memory is wanting; nothing is said.
///
/// Where the files tell what they hold, `ran` says which text is said, alone and at once, at each
/// status. `silent` says that nothing is said at 5 to 7, `statuses` which statuses there are,
/// `files` that files are only read, `input` that nothing is heard, and `causes` when a status
/// comes from a failed call.
pub fn draw<F: Files, C: Console>(
    alloc: Global,
    words: &[String],
    look: Look,
    files: &mut F,
    console: &mut C,
) -> u8
    ensures ran { Ran look (order_of (map string_bytes words.now)) (F.told files.old).held
        (C.told console.old) (C.told console.new) result }
    ensures silent { IsStopped result → Grows (C.told console.old).log (C.told console.new).log [] }
    ensures statuses { Contains (statuses_of (order_of (map string_bytes words.now))) result }
    ensures files { ReadsOnly (F.told files.old) (F.told files.new) }
    ensures input { (C.told console.new).left ≡ (C.told console.old).left }
    ensures causes { HasCause
        (IsLacking (F.told files.old).held (order_of (map string_bytes words.now)))
        (F.told files.old) (F.told files.new) (C.told console.old) (C.told console.new) result }
{
    match tell(alloc, words, look, files) {
        Ok(told) => end_with(console, told.words.as_str(), told.status),
        Err(Halt::Refused(refusal)) => {
            end_with(console, refusal.text().as_str(), refusal.status())
        }
        Err(Halt::Stopped(Stop::Read)) => READ_FAILED,
        Err(Halt::Stopped(Stop::Write)) => WRITE_FAILED,
        Err(Halt::Stopped(Stop::Memory)) => NO_MEMORY,
    }
}
