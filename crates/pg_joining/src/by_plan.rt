//! Joining by a plan that was read.
ghost use Rattle.std.specs.Prelude.{[], ◌∷◌, false};
ghost use Rattle.pg_joining.specs.Prelude.{AnnouncesValue, Contains, HasCause, IsBudget};
ghost use Rattle.pg_joining.specs.Prelude.{IsGameLacking, IsSilent, StoresAt, form_of};
ghost use Rattle.pg_joining.specs.Prelude.{game_statuses};
ghost use Rattle.pg_joining.specs.Joins.{JoinedBy};

use crate::order::JoinOrder;
use crate::telling::tell_text;
use pg_io::{Console, Files};
use pg_join::Joiner;
use pg_messages::{NO_MEMORY, UNKNOWN};
use pg_plan::Plan;
use pg_settle::{Order, settle};
use std::alloc::Global;

/// Settles the game by what the folder has, and prints which positions are needed if that leaves it
/// open.
pub(crate) fn join_by_plan<F: Files, C: Console, R: Files + Drop>(
    alloc: Global,
    order: JoinOrder<'_>,
    plan: &Plan,
    certificates: R,
    files: &mut F,
    console: &mut C,
) -> u8
    requires { IsBudget order.budget }
    ensures ran { JoinedBy (form_of order.entry.images false order.entry.game.now)
        order.entry.game.now order.entry.certificate.now order.entry.budget
        (F.told files.old) (F.told files.new) (C.told console.old) (C.told console.new) result }
    ensures forced { AnnouncesValue (F.told files.old).held order.entry.game.now
        (C.told console.old).log (C.told console.new).log }
    ensures silent { IsSilent (C.told console.old) (C.told console.new) result }
    ensures statuses { Contains game_statuses result }
    ensures files { StoresAt (order.entry.certificate.now ∷ [])
        (F.told files.old) (F.told files.new) }
    ensures causes { HasCause (IsGameLacking (F.told files.old).held order.entry.game.now)
        (F.told files.old) (F.told files.new) (C.told console.old) (C.told console.new) result }
{
    let Ok(mut joiner) = Joiner::new(alloc, plan, order.folder, certificates) else {
        return NO_MEMORY;
    };
    let settling = Order {
        game: order.game,
        certificate: order.certificate,
        budget: order.budget,
        images: order.images,
        json: false,
    };
    let status = settle(alloc, settling, &mut joiner, files, console);
    if status != UNKNOWN {
        return status;
    }
    tell_text(console, joiner.needed.text(), UNKNOWN)
}
