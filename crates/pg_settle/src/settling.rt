//! Settling a game that was read.
ghost use Rattle.std.specs.Prelude.{[], ◌∷◌, IfErr, IfOk};
ghost use Rattle.pg_settle.specs.Prelude.{BothCauses, Does, IsWriteHalt, MuteAtMemory, StoresAt};
ghost use Rattle.pg_settle.specs.Budgets.{IsBudget};
ghost use Rattle.pg_settle.specs.Settling.{IsSettleEnd, SettlesGame, SettlesLines, form_of};

use crate::answering::answer;
use crate::delivering::deliver_output;
use crate::filing::file_of;
use crate::finder::Finder;
use crate::finding::Finding;
use crate::laws::shown_scores_are_values;
use crate::order::Order;
use crate::output::{open_text, score_output};
use crate::switching::settle_switching;
use pg_base::Kind;
use pg_game::Game;
use pg_io::{Console, Files};
use pg_messages::UNKNOWN;
use pg_results::node_count;
use pg_talk::{Halt, say_text};
use std::alloc::Global;

/// Settles a game on lines: what the finder brings is judged, and only a certificate that shows its
/// score is stored, and the score said after it, with how many positions were expanded and how many
/// nodes the certificate has. Else it is said that the game stays open.
fn settle_lines<F: Files, C: Console, S: Finder>(
    alloc: Global,
    game: &Game,
    order: Order<'_>,
    finder: &mut S,
    files: &mut F,
    console: &mut C,
) -> Result<u8, Halt>
    requires { IsBudget order.budget }
    ensures settled { Does
        (SettlesLines (S.brings finder.old)
        (form_of order.entry.images order.entry.json order.entry.game.now) game.now
        order.entry.certificate.now order.entry.budget)
        (F.told files.old) (F.told files.new) (C.told console.old) (C.told console.new) result }
    ensures files { StoresAt (order.entry.certificate.now ∷ [])
        (F.told files.old) (F.told files.new) }
    ensures causes { BothCauses ⊥ (F.told files.old) (F.told files.new)
        (C.told console.old) (C.told console.new) result }
    ensures quiet { MuteAtMemory (C.told console.old) (C.told console.new) result }
    ensures done { IfOk result IsSettleEnd }
    ensures halts { IfErr result IsWriteHalt }
{
    shown_scores_are_values();
    let found = answer(alloc, game, order.budget, finder)?;
    let positions = found.expanded;
    match &found.finding {
        Finding::Certificate { score, certificate } => {
            let text = file_of(alloc, game, certificate, order.images)?;
            let nodes = node_count(certificate);
            let bytes = text.len();
            let output = score_output(alloc, order, game, *score, nodes, positions, bytes)?;
            deliver_output(order.certificate, &text, &output, files, console)
        }
        Finding::Open => {
            let said = open_text(alloc, order, game, positions)?;
            say_text(console, said.as_str())?;
            Ok(UNKNOWN)
        }
    }
}

/// Settles a game that was read.
pub(crate) fn settle_game<F: Files, C: Console, S: Finder>(
    alloc: Global,
    game: &Game,
    order: Order<'_>,
    finder: &mut S,
    files: &mut F,
    console: &mut C,
) -> Result<u8, Halt>
    requires { IsBudget order.budget }
    ensures settled { Does
        (SettlesGame (S.brings finder.old)
        (form_of order.entry.images order.entry.json order.entry.game.now) game.now
        order.entry.certificate.now order.entry.budget)
        (F.told files.old) (F.told files.new) (C.told console.old) (C.told console.new) result }
    ensures files { StoresAt (order.entry.certificate.now ∷ [])
        (F.told files.old) (F.told files.new) }
    ensures causes { BothCauses ⊥ (F.told files.old) (F.told files.new)
        (C.told console.old) (C.told console.new) result }
    ensures quiet { MuteAtMemory (C.told console.old) (C.told console.new) result }
    ensures done { IfOk result IsSettleEnd }
    ensures halts { IfErr result IsWriteHalt }
{
    match game.kind {
        Kind::Switching => settle_switching(alloc, game, order, files, console),
        _ => settle_lines(alloc, game, order, finder, files, console),
    }
}
