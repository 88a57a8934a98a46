//! The top call.
ghost use Rattle.std.specs.Prelude.{◌≡◌, [], map, string_bytes, None};
ghost use Rattle.pg_cli.specs.Prelude.{Contains, BothCauses, HasCause};
ghost use Rattle.pg_cli.specs.Commands.{Gives, IsLacking, LeavesFiles, LeavesWork, Quiets};
ghost use Rattle.pg_cli.specs.Commands.{SaysNoMeaning, Silences, SpeaksInTime, asked, statuses_of};
ghost use Rattle.pg_cli.specs.Forced.{AnnouncesForced};
ghost use Rattle.pg_cli.specs.Run.{Carries, Ran};

use crate::checking::check;
use crate::generating::generate;
use crate::laws::announced_claims_are_forced;
use crate::playing::play;
use crate::reporting::report;
use crate::solving::{Options, positions_for, solve};
use pg_families::carry_out_in_family;
use pg_io::{Console, Files};
use pg_messages::Refusal;
use pg_pns::Work;
use pg_results::end_early;
use pg_sessions::{record, review};
use pg_talk::Halt;
use pg_words::{Command, meaning};
use std::alloc::Global;

/// Does what the words ask for.
fn carry_out<F: Files, C: Console>(
    alloc: Global,
    words: &[String],
    files: &mut F,
    console: &mut C,
    work: &mut Work,
) -> Result<u8, Halt>
    requires { work.old.positions ≡ [] }
    ensures ran { Carries (asked (map string_bytes words.now)) work.new
        (F.told files.old) (F.told files.new) (C.told console.old) (C.told console.new) result }
    ensures causes { BothCauses
        (IsLacking (F.told files.old).held (asked (map string_bytes words.now))) (F.told files.old)
        (F.told files.new) (C.told console.old) (C.told console.new) result }
    ensures quiet { Quiets (asked (map string_bytes words.now))
        (C.told console.old) (C.told console.new) result }
    ensures files { LeavesFiles (asked (map string_bytes words.now)) (F.told files.old)
        (F.told files.new) }
    ensures work { LeavesWork (F.told files.old).held (asked (map string_bytes words.now))
        work.old work.new }
    ensures prompt { SpeaksInTime (F.told files.old).held (asked (map string_bytes words.now))
        work.old work.new (C.told console.old) (C.told console.new) }
    ensures gives { Gives (asked (map string_bytes words.now)) result }
{
    let Some(command) = meaning(alloc, words)? else {
        return Err(Halt::Refused(Refusal::NoMeaning));
    };
    match command {
        Command::Solve {
            game,
            certificate,
            positions,
            images,
        } => match positions_for(positions) {
            Some(positions) => {
                let options = Options { positions, images };
                solve(alloc, &game, &certificate, options, files, console, work)
            }
            None => Err(Halt::Refused(Refusal::NoMeaning)),
        },
        Command::Check { game, certificate } => check(alloc, &game, &certificate, files, console),
        Command::Play {
            game,
            certificate,
            side,
        } => play(alloc, &game, &certificate, side, files, console),
        Command::Report { game, certificate } => report(alloc, &game, &certificate, files, console),
        Command::Gen {
            which,
            game,
            certificate,
        } => {
            let certificate = certificate.as_deref();
            generate(alloc, which, &game, certificate, files, console, work)
        }
        Command::OfFamily {
            family,
            task,
            game,
            certificate,
        } => carry_out_in_family(alloc, family, task, &game, &certificate, files, console),
        Command::Record { game, record: name } => record(alloc, &game, &name, files, console),
        Command::Review {
            game,
            record: name,
            positions,
        } => match positions_for(positions) {
            Some(most) => review(alloc, &game, &name, most, files, console, work),
            None => Err(Halt::Refused(Refusal::NoMeaning)),
        },
    }
}

/// Does what the words of the command line ask for, and gives the status.
///
/// - 0: done. The game is made and stored, the game is solved (that of a family: its class is
///   found) and its certificate stored, each claim of the certificate is accepted, the game that
///   was played is over, the report of a valid certificate is said, the record of a session is
///   stored, or a recorded game is reviewed.
/// - 1: the question that was asked last of a game on lines, or of a position of a recorded one, is
///   open after as many positions as the budget allows.
/// - 2: the words have no meaning, or the certificate has no claim of the side to play with the
///   game's turn.
/// - 3: the game file has a fault; for a review also where Y claims several points in a turn.
/// - 4: the certificate file has a fault, or the certificate isn't valid for the game, or has
///   images and stands for none of plain nodes; a report says all but the first as JSON.
/// - 5: a call that reads has failed, or a name isn't held; nothing is said of it.
/// - 6: a call that writes has failed; nothing is said of it.
/// - 7: memory is wanting; nothing is said of it.
/// - 8: the input has ended before the game that is played.
/// - 9: the hundredth reply, or the hundredth line of a session, was refused.
/// - 10: the record file has a fault.
///
/// A game that is made is stored before its size is said, and solved only then. Where the files
/// tell what they hold, `ran` says what is said and stored at each status, by the command; in play,
/// that the log is a dialogue of the side to its end, and that at 0 the outcome reaches the goal of
/// the claim; in a session, that the log is one by its rules. `forced` says that at any status
/// every claim that is accepted or played is forced by its side in the game that the file says, of
/// a family where the command is a family's. `silent` says what is said at 5 and 7, `words` what is
/// said of words without a meaning, `files` and `work` what is left, `prompt` that a review says
/// each loss before it searches on, `statuses` which statuses the command may give, and `causes`
/// when a status comes from a failed call. Of files and consoles that tell nothing, as the
/// system's, four clauses alone say something: `work` what it holds, though not of which game,
/// `statuses`, `causes`, and `files` that no file is being made afterwards where none was before.
pub fn run<F: Files, C: Console>(
    alloc: Global,
    words: &[String],
    files: &mut F,
    console: &mut C,
    work: &mut Work,
) -> u8
    requires { work.old.positions ≡ [] }
    ensures ran { Ran (asked (map string_bytes words.now)) work.new
        (F.told files.old) (F.told files.new) (C.told console.old) (C.told console.new) result }
    ensures forced { AnnouncesForced (F.told files.old).held (asked (map string_bytes words.now))
        (C.told console.old).log (C.told console.new).log }
    ensures silent { Silences (asked (map string_bytes words.now))
        (C.told console.old) (C.told console.new) result }
    ensures files { LeavesFiles (asked (map string_bytes words.now)) (F.told files.old)
        (F.told files.new) }
    ensures work { LeavesWork (F.told files.old).held (asked (map string_bytes words.now))
        work.old work.new }
    ensures prompt { SpeaksInTime (F.told files.old).held (asked (map string_bytes words.now))
        work.old work.new (C.told console.old) (C.told console.new) }
    ensures statuses { Contains (statuses_of (asked (map string_bytes words.now))) result }
    ensures words { asked (map string_bytes words.now) ≡ None
        → SaysNoMeaning (C.told console.old) (C.told console.new) result }
    ensures causes { HasCause
        (IsLacking (F.told files.old).held (asked (map string_bytes words.now))) (F.told files.old)
        (F.told files.new) (C.told console.old) (C.told console.new) result }
{
    announced_claims_are_forced();
    match carry_out(alloc, words, files, console, work) {
        Ok(status) => status,
        Err(halt) => end_early(console, halt),
    }
}
