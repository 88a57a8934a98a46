//! Checking a certificate for a game.
ghost use Rattle.std.specs.Prelude.{◌≡◌, ◌≢◌, [], map, Err, IfErr, IfOk, Some};
ghost use Rattle.pg_cli.specs.Prelude.{ReadsOnly, Game, IsFound, Evidence, DONE, Expanded, Check};
ghost use Rattle.pg_cli.specs.Prelude.{Speaks, Performs, BothCauses, HaltCauses, IsReadHalt};
ghost use Rattle.pg_io.specs.Stop.{Causes};
ghost use Rattle.pg_cli.specs.Checking.{AcceptsAll, RefusesCheck, head_acceptance};
ghost use Rattle.pg_cli.specs.Commands.{Quiets};
ghost use Rattle.pg_cli.specs.Reading.{AreLacking, read_of};
ghost use Rattle.pg_cli.specs.Run.{Carries};

use crate::judging::judge_both;
use pg_evidence::Verdict;
use pg_io::{Console, Files, Stop};
use pg_judge::ClaimHead;
use pg_messages::{DONE, Message, Refusal};
use pg_talk::{Halt, say};
use std::alloc::Global;

/// Says that each claim is accepted.
fn accept_all<C: Console>(console: &mut C, claims: &[ClaimHead]) -> Result<(), Stop>
    ensures said { Speaks (map head_acceptance claims.now)
        (C.told console.old).log (C.told console.new).log result }
    ensures causes { Causes ⊥ (C.told console.old).faults (C.told console.new).faults result }
    ensures left { (C.told console.new).left ≡ (C.told console.old).left }
    ensures write { IfErr result (λ stop. stop ≡ Stop.Write) }
{
    for claim in claims {
        let accepted = Message::Accepted {
            turn: claim.turn,
            side: claim.side,
            goal: claim.goal,
        };
        say(console, accepted)?;
    }
    Ok(())
}

/// Says that each claim of a certificate is accepted, where the one for which it stands is valid.
fn accept<C: Console>(console: &mut C, verdict: &Verdict) -> Result<u8, Halt>
    ensures judged { (g : Game) (e : Evidence) → IsFound g e verdict.now
        → Performs (RefusesCheck (read_of g e)) (AcceptsAll (read_of g e))
        (C.told console.old) (C.told console.new) result }
    ensures quiet { Quiets (Some (Check [] [])) (C.told console.old) (C.told console.new) result }
    ensures causes { HaltCauses ⊥ (C.told console.old).faults (C.told console.new).faults result }
    ensures done { IfOk result (λ status. status ≡ DONE) }
    ensures halts { IfErr result IsReadHalt }
    ensures deaf { result ≢ Err (Halt.Stopped Stop.Read) }
{
    match verdict {
        Verdict::Valid(claims) => {
            accept_all(console, claims)?;
            Ok(DONE)
        }
        Verdict::Faulty { claim, node, why } => Err(Halt::Refused(Refusal::Rejected {
            claim: *claim,
            node: *node,
            why: *why,
        })),
        Verdict::FaultyImage { claim, node, why } => Err(Halt::Refused(Refusal::RejectedImage {
            claim: *claim,
            node: *node,
            why: *why,
        })),
    }
}

/// Checks the certificate under one name for the game under another.
pub fn check<F: Files, C: Console>(
    alloc: Global,
    game: &str,
    certificate: &str,
    files: &mut F,
    console: &mut C,
) -> Result<u8, Halt>
    ensures ran { (work : Expanded) → Carries (Some (Check game.now certificate.now)) work
        (F.told files.old) (F.told files.new) (C.told console.old) (C.told console.new) result }
    ensures causes { BothCauses (AreLacking (F.told files.old).held game.now certificate.now)
        (F.told files.old) (F.told files.new) (C.told console.old) (C.told console.new) result }
    ensures quiet { Quiets (Some (Check game.now certificate.now))
        (C.told console.old) (C.told console.new) result }
    ensures kept { ReadsOnly (F.told files.old) (F.told files.new) }
    ensures done { IfOk result (λ status. status ≡ DONE) }
    ensures halts { IfErr result IsReadHalt }
{
    let judged = judge_both(alloc, files, game, certificate)?;
    accept(console, &judged.1)
}
