//! Reporting on a certificate for a game.
ghost use Rattle.std.specs.Prelude.{◌≢◌, [], string_bytes, Err, IfErr, IfOk, Some};
ghost use Rattle.pg_cli.specs.Prelude.{ReadsOnly, IsFound, Evidence, Expanded, Report, Performs};
ghost use Rattle.pg_cli.specs.Prelude.{BothCauses, HaltCauses, IsReadHalt};
ghost use Rattle.pg_cli.specs.Commands.{Quiets};
ghost use Rattle.pg_cli.specs.Reading.{AreLacking, read_of};
ghost use Rattle.pg_cli.specs.Reporting.{Accounts, IsReportEnd, RefusesReport, Reports};
ghost use Rattle.pg_cli.specs.Run.{Carries};

use crate::code::Code;
use crate::judging::judge_both;
use pg_base::Memory;
use pg_evidence::Verdict;
use pg_game::Game;
use pg_io::{Console, Files, Stop};
use pg_messages::{DONE, REFUSED};
use pg_talk::{Halt, say_text};
use std::alloc::Global;

/// What there is to say of a certificate for a game, and the status that goes with it.
fn account(alloc: Global, game: &Game, verdict: &Verdict) -> Result<(String, u8), Memory>
    ensures told { IfOk result (λ told. (e : Evidence) → IsFound game.now e verdict.now
        → Accounts game.now e (string_bytes told.0) told.1) }
    ensures end { IfOk result (λ told. IsReportEnd told.1) }
{
    match verdict {
        Verdict::Valid(claims) => Ok((crate::report(alloc, game, claims)?, DONE)),
        Verdict::Faulty { claim, node, why } => Ok((
            crate::rejection(alloc, *claim, *node, Code::Node(*why))?,
            REFUSED,
        )),
        Verdict::FaultyImage { claim, node, why } => Ok((
            crate::rejection(alloc, *claim, *node, Code::Image(*why))?,
            REFUSED,
        )),
    }
}

/// Says what there is to say of a certificate for a game.
fn report_on<C: Console>(
    alloc: Global,
    console: &mut C,
    game: &Game,
    verdict: &Verdict,
) -> Result<u8, Halt>
    ensures reported { (e : Evidence) → IsFound game.now e verdict.now
        → Performs (RefusesReport (read_of game.now e)) (Reports (read_of game.now e))
        (C.told console.old) (C.told console.new) result }
    ensures quiet { Quiets (Some (Report [] [])) (C.told console.old) (C.told console.new) result }
    ensures causes { HaltCauses ⊥ (C.told console.old).faults (C.told console.new).faults result }
    ensures done { IfOk result IsReportEnd }
    ensures halts { IfErr result IsReadHalt }
    ensures deaf { result ≢ Err (Halt.Stopped Stop.Read) }
{
    let told = account(alloc, game, verdict)?;
    say_text(console, told.0.as_str())?;
    Ok(told.1)
}

/// Reports on the certificate under one name for the game under another.
pub fn report<F: Files, C: Console>(
    alloc: Global,
    game: &str,
    certificate: &str,
    files: &mut F,
    console: &mut C,
) -> Result<u8, Halt>
    ensures ran { (work : Expanded) → Carries (Some (Report game.now certificate.now)) work
        (F.told files.old) (F.told files.new) (C.told console.old) (C.told console.new) result }
    ensures causes { BothCauses (AreLacking (F.told files.old).held game.now certificate.now)
        (F.told files.old) (F.told files.new) (C.told console.old) (C.told console.new) result }
    ensures quiet { Quiets (Some (Report game.now certificate.now))
        (C.told console.old) (C.told console.new) result }
    ensures kept { ReadsOnly (F.told files.old) (F.told files.new) }
    ensures done { IfOk result IsReportEnd }
    ensures halts { IfErr result IsReadHalt }
{
    let judged = judge_both(alloc, files, game, certificate)?;
    report_on(alloc, console, &judged.0, &judged.1)
}
