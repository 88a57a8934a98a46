//! The top call.
ghost use Rattle.std.specs.Prelude.{◌≡◌, []};
ghost use Rattle.pg_replaying.specs.Prelude.{Contains, Grows, HasCause, IsStopped, ReadsOnly};
ghost use Rattle.pg_replaying.specs.Runs.{LacksRecord, Ran, record_statuses};

use crate::opening::tell;
use crate::order::RecordOrder;
use pg_captions::Look;
use pg_drawing::end_with;
use pg_io::{Console, Files, Stop};
use pg_messages::{NO_MEMORY, READ_FAILED, WRITE_FAILED};
use pg_talk::Halt;
use std::alloc::Global;

/// Says the picture of a recorded game, and returns the status. The game is one on lines of points
/// or a switching game. Moves that were taken back count as not played. The points that were
/// played have the number of their move, and the position is that after the last of them. `look`
/// says whether the picture has numbers, lines and a legend, and at what width it is shown.
///
/// - 0: the picture is said.
/// - 2: games of this kind aren't recorded, or there are fewer moves than are asked for, and that
///   is said.
/// - 3: the game file is invalid.
/// - 5: a read failed, or a file is missing; nothing is said.
/// - 6: a write failed; nothing is said.
/// - 7: memory ran out; nothing is said.
/// - 10: the record file is invalid.
///
/// If the files report what they contain, `ran` says which text is said, alone and at once, at
/// each status. `silent` says that nothing is said at 5 to 7, `statuses` which statuses there are,
/// `files` that files are only read, `input` that nothing is read from the console, and `causes`
/// when a status comes from a failed call.
pub fn draw_record<F: Files, C: Console>(
    alloc: Global,
    order: RecordOrder<'_>,
    look: Look,
    files: &mut F,
    console: &mut C,
) -> u8
    ensures ran { Ran look order.entry.game.now order.entry.record.now order.entry.moves
        (F.told files.old).held (C.told console.old) (C.told console.new) result }
    ensures silent { IsStopped result → Grows (C.told console.old).log (C.told console.new).log [] }
    ensures statuses { Contains record_statuses result }
    ensures files { ReadsOnly (F.told files.old) (F.told files.new) }
    ensures input { (C.told console.new).left ≡ (C.told console.old).left }
    ensures causes { HasCause
        (LacksRecord (F.told files.old).held order.entry.game.now order.entry.record.now)
        (F.told files.old) (F.told files.new) (C.told console.old) (C.told console.new) result }
{
    match tell(alloc, look, order, files) {
        Ok(told) => end_with(console, told.words.as_str(), told.status),
        Err(Halt::Refused(refusal)) => {
            end_with(console, refusal.text().as_str(), refusal.status())
        }
        Err(Halt::Stopped(Stop::Read)) => READ_FAILED,
        Err(Halt::Stopped(Stop::Write)) => WRITE_FAILED,
        Err(Halt::Stopped(Stop::Memory)) => NO_MEMORY,
    }
}
