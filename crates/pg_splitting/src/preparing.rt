//! What a game is split into, by what its folder contains.
ghost use Rattle.std.specs.Prelude.{IfOk};
ghost use Rattle.pg_io.specs.Files.{ReadsOnly};
ghost use Rattle.pg_splitting.specs.Looking.{LookCauses};
ghost use Rattle.pg_splitting.specs.Prepared.{IsPrepared, IsSplitAgain, IsSplitFirst};

use crate::looking::read_if_there;
use crate::order::SplitOrder;
use crate::survey::files_needed;
use pg_base::Memory;
use pg_game::Game;
use pg_io::{Files, Stop};
use pg_plan::{MAX_PLAN_BYTES, Plan, PlanFault, plan_name, read_plan};
use pg_split::{Split, refine, split};
use std::alloc::Global;

/// Why a game isn't split.
#[derive(Clone, Copy, Debug, PartialEq, Eq)]
pub enum Decline {
    /// The plan in the folder has a fault.
    FaultyPlan {
        /// The number of the fault.
        number: u8,
        /// The number of its line, 0 for the whole file.
        line: u32,
    },
    /// The plan in the folder isn't that of the game.
    OtherPlan,
    /// There is no plan for the game.
    NoPlan,
}

/// What comes of a game.
#[derive(Debug, Drop)]
pub(crate) enum Prepared {
    /// It is split.
    Split(Split),
    /// It isn't split.
    Declined(Decline),
}

/// Splits a game of which there is no plan.
fn split_first(alloc: Global, game: &Game, most: u32) -> Result<Prepared, Memory>
    ensures { IfOk result (IsSplitFirst most game.now) }
{
    match split(alloc, game, most)? {
        Some(split) => Ok(Prepared::Split(split)),
        None => Ok(Prepared::Declined(Decline::NoPlan)),
    }
}

/// Splits positions of a plan further: those of these game files.
fn split_again(
    alloc: Global,
    game: &Game,
    plan: &Plan,
    needed: &[u32],
    most: u32,
) -> Result<Prepared, Memory>
    ensures { IfOk result (IsSplitAgain most game.now plan.now) }
{
    match refine(alloc, game, plan, needed, most)? {
        Some(split) => Ok(Prepared::Split(split)),
        None => Ok(Prepared::Declined(Decline::OtherPlan)),
    }
}

/// Splits positions of a plan that stayed unknown.
fn prepare_again<F: Files>(
    alloc: Global,
    game: &Game,
    order: SplitOrder<'_>,
    plan: &Plan,
    files: &mut F,
) -> Result<Prepared, Stop>
    ensures split { IfOk result (IsSplitAgain order.entry.most game.now plan.now) }
    ensures causes { LookCauses (F.told files.old).faults (F.told files.new).faults result }
    ensures kept { ReadsOnly (F.told files.old) (F.told files.new) }
{
    let needed = files_needed(alloc, game, order.folder, plan, files)?;
    let prepared = split_again(alloc, game, plan, &needed, order.most)?;
    Ok(prepared)
}

/// Returns what the game is split into: by itself if its folder has no plan that can be opened,
/// else by the plan.
pub(crate) fn prepare<F: Files>(
    alloc: Global,
    game: &Game,
    order: SplitOrder<'_>,
    files: &mut F,
) -> Result<Prepared, Stop>
    ensures prepared { IfOk result (IsPrepared order.entry.folder.now order.entry.most game.now
        (F.told files.old) (F.told files.new)) }
    ensures causes { LookCauses (F.told files.old).faults (F.told files.new).faults result }
    ensures kept { ReadsOnly (F.told files.old) (F.told files.new) }
{
    let name = plan_name(alloc, order.folder)?;
    let found = read_if_there(alloc, files, name.as_str(), MAX_PLAN_BYTES)?;
    let Some(text) = found else {
        let prepared = split_first(alloc, game, order.most)?;
        return Ok(prepared);
    };
    match read_plan(alloc, &text) {
        Ok(plan) => prepare_again(alloc, game, order, &plan, files),
        Err(PlanFault::Bad { number, line }) => {
            Ok(Prepared::Declined(Decline::FaultyPlan { number, line }))
        }
        Err(PlanFault::Memory) => Err(Stop::Memory),
    }
}
