//! Settling a switching game: its class, by two forests. No finder is asked.
ghost use Rattle.std.specs.Prelude.{◌≡◌, [], ◌∷◌, IfErr, IfOk};
ghost use Rattle.pg_settle.specs.Prelude.{BothCauses, DONE, Does, IsWriteHalt, MuteAtMemory};
ghost use Rattle.pg_settle.specs.Prelude.{StoresAt, Switching};
ghost use Rattle.pg_settle.specs.Settling.{SettlesSwitching, ShowsClass, form_of};

use crate::delivering::deliver_output;
use crate::filing::file_of;
use crate::order::Order;
use crate::output::class_output;
use pg_base::Memory;
use pg_cert::Cert;
use pg_game::Game;
use pg_io::{Console, Files};
use pg_pns::Work;
use pg_results::node_count;
use pg_solve::{Class, MIN_POSITIONS, Solution, solve};
use pg_talk::Halt;
use std::alloc::Global;

/// Returns the class of a switching game, with the certificate that shows it: two claims of one
/// node.
///
/// # Errors
///
/// `Memory` if an allocation failed.
pub fn classified(alloc: Global, game: &Game) -> Result<(Class, Cert), Memory>
    requires { game.now.kind ≡ Switching }
    ensures { IfOk result (λ found. ShowsClass game.now found.0 found.1) }
{
    let mut work = Work::new(alloc);
    match solve(alloc, game, MIN_POSITIONS, &mut work)? {
        Solution::Class { class, certificate } => Ok((class, certificate)),
        _ => unreachable!(),
    }
}

/// Settles a switching game: stores the certificate that shows its class, and says the class.
pub(crate) fn settle_switching<F: Files, C: Console>(
    alloc: Global,
    game: &Game,
    order: Order<'_>,
    files: &mut F,
    console: &mut C,
) -> Result<u8, Halt>
    requires { game.now.kind ≡ Switching }
    ensures settled { Does
        (SettlesSwitching
        (form_of order.entry.images order.entry.json order.entry.game.now)
        game.now order.entry.certificate.now)
        (F.told files.old) (F.told files.new) (C.told console.old) (C.told console.new) result }
    ensures files { StoresAt (order.entry.certificate.now ∷ [])
        (F.told files.old) (F.told files.new) }
    ensures causes { BothCauses ⊥ (F.told files.old) (F.told files.new)
        (C.told console.old) (C.told console.new) result }
    ensures quiet { MuteAtMemory (C.told console.old) (C.told console.new) result }
    ensures done { IfOk result (λ status. status ≡ DONE) }
    ensures halts { IfErr result IsWriteHalt }
{
    let found = classified(alloc, game)?;
    let text = file_of(alloc, game, &found.1, order.images)?;
    let nodes = node_count(&found.1);
    let bytes = text.len();
    let output = class_output(alloc, order, game, found.0, nodes, bytes)?;
    deliver_output(order.certificate, &text, &output, files, console)
}
