//! The file of a plan.
ghost use Rattle.std.specs.Prelude.{IfOk, string_bytes, ◌≡◌};
ghost use Rattle.pg_joining.specs.Plans.{IsPlanAbsent, OpensPlan, PlanCauses, plan_fault_text};
ghost use Rattle.pg_joining.specs.Prelude.{ReadsOnly};
ghost use Rattle.pg_joining.specs.Telling.{EndsOnPlan};

use crate::telling::tell_text;
use pg_base::Memory;
use pg_io::{Console, Files, Stop, read_whole};
use pg_messages::{NO_MEMORY, REFUSED};
use pg_plan::{MAX_PLAN_BYTES, Plan, PlanFault, plan_name, read_plan};
use std::alloc::Global;

/// Why there is no plan.
#[derive(Clone, Copy, Debug)]
pub(crate) enum NoPlan {
    /// The file has a fault.
    Faulty {
        /// The number of the fault.
        number: u8,
        /// The number of its line, 0 for the whole file.
        line: u32,
    },
    /// A call on files has failed, or memory is wanting.
    Stopped(Stop),
}

/// Returns the plan in the folder.
pub(crate) fn open_plan<F: Files>(
    alloc: Global,
    files: &mut F,
    folder: &str,
) -> Result<Plan, NoPlan>
    ensures opened { OpensPlan (F.told files.old).held folder.now result }
    ensures causes { PlanCauses (IsPlanAbsent (F.told files.old).held folder.now)
        (F.told files.old).faults (F.told files.new).faults result }
    ensures kept { ReadsOnly (F.told files.old) (F.told files.new) }
{
    let Ok(name) = plan_name(alloc, folder) else {
        return Err(NoPlan::Stopped(Stop::Memory));
    };
    match read_whole(alloc, files, name.as_str(), MAX_PLAN_BYTES) {
        Ok(text) => match read_plan(alloc, &text) {
            Ok(plan) => Ok(plan),
            Err(PlanFault::Bad { number, line }) => Err(NoPlan::Faulty { number, line }),
            Err(PlanFault::Memory) => Err(NoPlan::Stopped(Stop::Memory)),
        },
        Err(stop) => Err(NoPlan::Stopped(stop)),
    }
}

/// Returns the text of a fault in the file of a plan.
fn plan_fault_text(alloc: Global, number: u8, line: u32) -> Result<String, Memory>
    ensures { IfOk result (λ text. string_bytes text ≡ plan_fault_text number line) }
{
    let text = format!(in alloc; "plan P{number} line {line}\n")?;
    Ok(text)
}

/// Prints a fault in the file of a plan, and returns the status of the run.
pub(crate) fn tell_fault<C: Console>(alloc: Global, console: &mut C, number: u8, line: u32) -> u8
    ensures { EndsOnPlan number line (C.told console.old) (C.told console.new) result }
{
    let Ok(text) = plan_fault_text(alloc, number, line) else {
        return NO_MEMORY;
    };
    tell_text(console, text.as_str(), REFUSED)
}
