//! Playing a side of a game by a certificate.
ghost use Rattle.std.specs.Prelude.{IfErr, IfOk, Some};
ghost use Rattle.pg_cli.specs.Prelude.{ReadsOnly, IsWithinItsLimits, StandsFor, Evidence, IsValid};
ghost use Rattle.pg_cli.specs.Prelude.{Expanded, Play, Performs, BothCauses, HaltCauses, IsPlayEnd};
ghost use Rattle.pg_cli.specs.Prelude.{IsPlayHalt};
ghost use Rattle.pg_cli.specs.Commands.{Quiets};
ghost use Rattle.pg_cli.specs.Playing.{PlaysOn, RefusesPlay};
ghost use Rattle.pg_cli.specs.Reading.{AreLacking, read_of};
ghost use Rattle.pg_cli.specs.Run.{Carries};

use crate::reading::open_both;
use pg_base::Side;
use pg_check::{CheckFault, Checked};
use pg_evidence::{Evidence, check_standing, standing_of};
use pg_game::Game;
use pg_io::{Console, Files, Stop};
use pg_messages::Refusal;
use pg_player::{OpenFault, Player};
use pg_talk::{Halt, play_claim};
use std::alloc::Global;

/// Plays a side of the game over a console by the claim for it.
fn play_checked<C: Console>(
    alloc: Global,
    console: &mut C,
    checked: Checked<'_>,
    side: Side,
) -> Result<u8, Halt>
    requires { IsValid checked.game.now checked.cert.now }
    ensures played { (e : Evidence) → StandsFor checked.entry.game.now e checked.entry.cert.now
        → Performs (RefusesPlay side (read_of checked.entry.game.now e))
        (PlaysOn side (read_of checked.entry.game.now e))
        (C.told console.old) (C.told console.new) result }
    ensures causes { HaltCauses ⊥ (C.told console.old).faults (C.told console.new).faults result }
    ensures done { IfOk result IsPlayEnd }
    ensures halts { IfErr result IsPlayHalt }
{
    match Player::open(alloc, checked, side) {
        Ok(mut player) => play_claim(&mut player, console),
        Err(OpenFault::NoClaim) => Err(Halt::Refused(Refusal::NoClaim { side })),
        Err(OpenFault::Memory) => Err(Halt::Stopped(Stop::Memory)),
    }
}

/// Plays a side of the game over a console by the certificate for which this one stands.
fn play_by<C: Console>(
    alloc: Global,
    console: &mut C,
    game: &Game,
    evidence: Evidence,
    side: Side,
) -> Result<u8, Halt>
    requires { IsWithinItsLimits evidence }
    ensures played { Performs (RefusesPlay side (read_of game.now evidence))
        (PlaysOn side (read_of game.now evidence))
        (C.told console.old) (C.told console.new) result }
    ensures causes { HaltCauses ⊥ (C.told console.old).faults (C.told console.new).faults result }
    ensures done { IfOk result IsPlayEnd }
    ensures halts { IfErr result IsPlayHalt }
{
    let standing = standing_of(alloc, game, evidence)?;
    match check_standing(alloc, game, &standing) {
        Ok(checked) => play_checked(alloc, console, checked, side),
        Err(CheckFault::Reject { claim, node, why }) => {
            Err(Halt::Refused(Refusal::Rejected { claim, node, why }))
        }
        Err(CheckFault::Memory) => Err(Halt::Stopped(Stop::Memory)),
    }
}

/// Plays a side of the game under one name by the certificate under another.
pub fn play<F: Files, C: Console>(
    alloc: Global,
    game: &str,
    certificate: &str,
    side: Side,
    files: &mut F,
    console: &mut C,
) -> Result<u8, Halt>
    ensures ran { (work : Expanded) → Carries (Some (Play game.now certificate.now side)) work
        (F.told files.old) (F.told files.new) (C.told console.old) (C.told console.new) result }
    ensures causes { BothCauses (AreLacking (F.told files.old).held game.now certificate.now)
        (F.told files.old) (F.told files.new) (C.told console.old) (C.told console.new) result }
    ensures quiet { Quiets (Some (Play game.now certificate.now side))
        (C.told console.old) (C.told console.new) result }
    ensures kept { ReadsOnly (F.told files.old) (F.told files.new) }
    ensures done { IfOk result IsPlayEnd }
    ensures halts { IfErr result IsPlayHalt }
{
    let (game, evidence) = open_both(alloc, files, game, certificate)?;
    play_by(alloc, console, &game, evidence, side)
}
