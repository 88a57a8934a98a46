//! Checking a certificate for a connectivity game.
ghost use Rattle.std.specs.Prelude.{◌≡◌, ◌≢◌, [], map, Err, IfErr, IfOk};
ghost use Rattle.pg_families.specs.Prelude.{Grows, ReadsOnly, Causes, DONE, IsWithinRanges};
ghost use Rattle.pg_families.specs.Prelude.{Performs, BothCauses, HaltCauses, IsReadHalt, QuietsBy};
ghost use Rattle.pg_families.specs.Prelude.{Runs, Speaks};
ghost use Rattle.pg_families.specs.Connectivity.{AcceptsSpans, AreSpansLacking, RefusesSpanCheck};
ghost use Rattle.pg_families.specs.Connectivity.{span_acceptance, span_both_held, span_pair};

use crate::opening::open_span_both;
use pg_base::Goal;
use pg_io::{Console, Files, Stop};
use pg_messages::{DONE, Message, Refusal};
use pg_span::{SpanCert, SpanClaim, SpanFault, SpanGame};
use pg_talk::{Halt, say};
use std::alloc::Global;

/// Says that each claim is accepted.
fn accept_spans<C: Console>(console: &mut C, claims: &[SpanClaim]) -> Result<(), Stop>
    ensures said { Speaks (map span_acceptance claims.now)
        (C.told console.old).log (C.told console.new).log result }
    ensures causes { Causes ⊥ (C.told console.old).faults (C.told console.new).faults result }
    ensures left { (C.told console.new).left ≡ (C.told console.old).left }
    ensures write { IfErr result (λ stop. stop ≡ Stop.Write) }
{
    for claim in claims {
        let accepted = Message::Accepted {
            turn: claim.turn,
            side: claim.side,
            goal: Goal::Win,
        };
        say(console, accepted)?;
    }
    Ok(())
}

/// Says that each claim of the certificate is accepted, where it is valid for the game.
fn judge_spans<C: Console>(
    alloc: Global,
    console: &mut C,
    game: &SpanGame,
    certificate: &SpanCert,
) -> Result<u8, Halt>
    requires { IsWithinRanges certificate.now }
    ensures judged { Performs (RefusesSpanCheck (Ok (span_pair (game.now, certificate.now))))
        (AcceptsSpans (Ok (span_pair (game.now, certificate.now))))
        (C.told console.old) (C.told console.new) result }
    ensures quiet { QuietsBy (Grows (C.told console.old).log (C.told console.new).log [])
        (Grows (C.told console.old).log (C.told console.new).log [])
        (C.told console.old) (C.told console.new) result }
    ensures causes { HaltCauses ⊥ (C.told console.old).faults (C.told console.new).faults result }
    ensures done { IfOk result (λ status. status ≡ DONE) }
    ensures halts { IfErr result IsReadHalt }
    ensures deaf { result ≢ Err (Halt.Stopped Stop.Read) }
{
    match pg_span::span_check(alloc, game, certificate) {
        Ok(_) => {
            accept_spans(console, certificate.claims.as_slice())?;
            Ok(DONE)
        }
        Err(SpanFault::Reject { claim, why }) => Err(Halt::Refused(Refusal::RejectedSpan {
            claim,
            why: why.number(),
        })),
        Err(SpanFault::Memory) => Err(Halt::Stopped(Stop::Memory)),
    }
}

/// Checks the certificate under one name for the connectivity game under another.
pub fn check_span<F: Files, C: Console>(
    alloc: Global,
    game: &str,
    certificate: &str,
    files: &mut F,
    console: &mut C,
) -> Result<u8, Halt>
    ensures ran { Runs
        (λ held. RefusesSpanCheck (span_both_held (held game.now) (held certificate.now)))
        (λ held done end.
        AcceptsSpans (span_both_held (held game.now) (held certificate.now)) done.entries end
        × (done.stored ≡ [])) (F.told files.old) (F.told files.new) (C.told console.old)
        (C.told console.new) result }
    ensures causes { BothCauses (AreSpansLacking (F.told files.old).held game.now certificate.now)
        (F.told files.old) (F.told files.new) (C.told console.old) (C.told console.new) result }
    ensures quiet { QuietsBy (Grows (C.told console.old).log (C.told console.new).log [])
        (Grows (C.told console.old).log (C.told console.new).log [])
        (C.told console.old) (C.told console.new) result }
    ensures kept { ReadsOnly (F.told files.old) (F.told files.new) }
    ensures done { IfOk result (λ status. status ≡ DONE) }
    ensures halts { IfErr result IsReadHalt }
{
    let both = open_span_both(alloc, files, game, certificate)?;
    judge_spans(alloc, console, &both.0, &both.1)
}
