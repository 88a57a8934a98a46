//! The top call.
ghost use Rattle.std.specs.Prelude.{◌≡◌, []};
ghost use Rattle.pg_binding.specs.Prelude.{Contains, Grows, HasCause, IsLackingTwo, IsStopped};
ghost use Rattle.pg_binding.specs.Prelude.{ReadsOnly};
ghost use Rattle.pg_binding.specs.Books.{book_held};
ghost use Rattle.pg_binding.specs.Runs.{Ran, book_statuses};

use crate::opening::tell;
use crate::order::BookOrder;
use pg_drawing::end_with;
use pg_io::{Console, Files, Stop};
use pg_messages::{NO_MEMORY, READ_FAILED, WRITE_FAILED};
use pg_talk::Halt;
use std::alloc::Global;

/// Prints the proof of a certificate as a book, one page of HTML, and returns the status. The game
/// is one on lines of points, a switching game, a connectivity game or one on vectors. The
/// certificate of the first two may have images: the book is then that of the certificate for which
/// it stands. It is checked first. The book of the first two has the points at the places of the
/// order's layout, if the game is on lines without a grid and has as many, and shows positions to
/// the order's depth.
///
/// - 0: the book is printed, and the certificate is valid for the game.
/// - 3: the game file is invalid.
/// - 4: the certificate file is invalid, or the certificate isn't valid for the game.
/// - 5: a read failed, or a file is missing; nothing is printed.
/// - 6: a write failed; nothing is printed.
/// - 7: memory ran out; nothing is printed.
///
/// If the files report what they contain, `ran` says which text is printed, alone and at once, at
/// each status. `silent` says that nothing is printed at 5 to 7, `statuses` which statuses there
/// are, `files` that files are only read, `input` that nothing is read from the console, and
/// `causes` when a status comes from a failed call.
pub fn bind<F: Files, C: Console>(
    alloc: Global,
    order: BookOrder<'_>,
    files: &mut F,
    console: &mut C,
) -> u8
    ensures ran { Ran order.entry.game.now order.entry.certificate.now order.entry.layout
        order.entry.depth (F.told files.old).held (C.told console.old) (C.told console.new) result }
    ensures silent { IsStopped result → Grows (C.told console.old).log (C.told console.new).log [] }
    ensures statuses { Contains book_statuses result }
    ensures files { ReadsOnly (F.told files.old) (F.told files.new) }
    ensures input { (C.told console.new).left ≡ (C.told console.old).left }
    ensures causes { HasCause (IsLackingTwo book_held (F.told files.old).held
        order.entry.game.now order.entry.certificate.now)
        (F.told files.old) (F.told files.new) (C.told console.old) (C.told console.new) result }
{
    match tell(alloc, order, files) {
        Ok(told) => end_with(console, told.words.as_str(), told.status),
        Err(Halt::Refused(refusal)) => {
            end_with(console, refusal.text().as_str(), refusal.status())
        }
        Err(Halt::Stopped(Stop::Read)) => READ_FAILED,
        Err(Halt::Stopped(Stop::Write)) => WRITE_FAILED,
        Err(Halt::Stopped(Stop::Memory)) => NO_MEMORY,
    }
}
