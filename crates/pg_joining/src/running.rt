//! The top call.
ghost use Rattle.std.specs.Prelude.{[], ◌∷◌, ◌⊎◌, false};
ghost use Rattle.pg_joining.specs.Prelude.{AnnouncesValue, Contains, HasCause, IsBudget};
ghost use Rattle.pg_joining.specs.Prelude.{IsGameLacking, IsSilent, StoresAt, form_of};
ghost use Rattle.pg_joining.specs.Joins.{JoinRan};
ghost use Rattle.pg_joining.specs.Plans.{IsPlanAbsent};
ghost use Rattle.pg_joining.specs.Telling.{join_statuses};

use crate::by_plan::join_by_plan;
use crate::order::JoinOrder;
use crate::plan_file::{NoPlan, open_plan, tell_fault};
use pg_io::{Console, Files};
use pg_results::end_early;
use pg_talk::Halt;
use std::alloc::Global;

/// Joins the certificates of the positions into which a game was split: reads the plan in the
/// folder, then settles the game as `settle` of `pg_settle` does, with a finder that backs values
/// up along the plan and joins the proofs; and if that leaves the game open, prints which positions
/// are needed.
///
/// The plan, the game and the joined certificate are files of `files`; the certificates of the
/// positions are read by `certificates`.
///
/// - 0: the certificate is stored, and the score is printed.
/// - 1: `unknown after 0 positions` is printed, and then `needed N positions` with a line for each.
/// - 3: the game file has a fault, which is printed.
/// - 4: the plan has a fault, which is printed: `plan P4 line 7`.
/// - 5: a call that reads has failed, or there is no file of the plan's or the game's name; nothing
///   is printed.
/// - 6: a call that writes has failed.
/// - 7: memory ran out; nothing is printed.
///
/// `ran` says what is printed and stored at each status, as that of `settle` does. `forced` says
/// that at any status a score that is printed is the value of the game that the file describes.
/// `silent`, `statuses`, `files` and `causes` are those of `settle`; a status of 5 may also come
/// from a plan that isn't there, and 4 comes from one with a fault.
pub fn join<F: Files, C: Console, R: Files + Drop>(
    alloc: Global,
    order: JoinOrder<'_>,
    certificates: R,
    files: &mut F,
    console: &mut C,
) -> u8
    requires { IsBudget order.budget }
    ensures ran { JoinRan (form_of order.entry.images false order.entry.game.now)
        order.entry.game.now order.entry.certificate.now order.entry.budget order.entry.folder.now
        (F.told files.old) (F.told files.new) (C.told console.old) (C.told console.new) result }
    ensures forced { AnnouncesValue (F.told files.old).held order.entry.game.now
        (C.told console.old).log (C.told console.new).log }
    ensures silent { IsSilent (C.told console.old) (C.told console.new) result }
    ensures statuses { Contains join_statuses result }
    ensures files { StoresAt (order.entry.certificate.now ∷ [])
        (F.told files.old) (F.told files.new) }
    ensures causes { HasCause (IsGameLacking (F.told files.old).held order.entry.game.now
        ⊎ IsPlanAbsent (F.told files.old).held order.entry.folder.now)
        (F.told files.old) (F.told files.new) (C.told console.old) (C.told console.new) result }
{
    match open_plan(alloc, files, order.folder) {
        Ok(plan) => join_by_plan(alloc, order, &plan, certificates, files, console),
        Err(NoPlan::Faulty { number, line }) => tell_fault(alloc, console, number, line),
        Err(NoPlan::Stopped(stop)) => end_early(console, Halt::Stopped(stop)),
    }
}
