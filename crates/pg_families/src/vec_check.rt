//! Checking a certificate for a game on vectors.
ghost use Rattle.std.specs.Prelude.{◌≡◌, ◌≢◌, [], map, Err, IfErr, IfOk};
ghost use Rattle.pg_families.specs.Prelude.{Grows, ReadsOnly, Causes, DONE, IsWithinLimits};
ghost use Rattle.pg_families.specs.Prelude.{Performs, BothCauses, HaltCauses, IsReadHalt, QuietsBy};
ghost use Rattle.pg_families.specs.Prelude.{Runs, Speaks};
ghost use Rattle.pg_families.specs.Vectors.{AcceptsVectors, AreVectorsLacking, RefusesVectorCheck};
ghost use Rattle.pg_families.specs.Vectors.{vec_acceptance, vectors_both_held, vectors_pair};

use crate::opening::open_vectors_both;
use pg_cert::{Cert, Claim};
use pg_gf2::{VecFault, VecGame};
use pg_io::{Console, Files, Stop};
use pg_messages::{DONE, Message, Refusal};
use pg_talk::{Halt, say};
use std::alloc::Global;

/// Says that each claim is accepted.
fn accept_vectors<C: Console>(console: &mut C, claims: &[Claim]) -> Result<(), Stop>
    ensures said { Speaks (map vec_acceptance claims.now)
        (C.told console.old).log (C.told console.new).log result }
    ensures causes { Causes ⊥ (C.told console.old).faults (C.told console.new).faults result }
    ensures left { (C.told console.new).left ≡ (C.told console.old).left }
    ensures write { IfErr result (λ stop. stop ≡ Stop.Write) }
{
    for claim in claims {
        let accepted = Message::Accepted {
            turn: claim.turn,
            side: claim.side,
            goal: claim.goal,
        };
        say(console, accepted)?;
    }
    Ok(())
}

/// Says that each claim of the certificate is accepted, where it is valid for the game.
fn judge_vectors<C: Console>(
    alloc: Global,
    console: &mut C,
    game: &VecGame,
    certificate: &Cert,
) -> Result<u8, Halt>
    requires { IsWithinLimits certificate.now }
    ensures judged { Performs (RefusesVectorCheck (Ok (vectors_pair (game.now, certificate.now))))
        (AcceptsVectors (Ok (vectors_pair (game.now, certificate.now))))
        (C.told console.old) (C.told console.new) result }
    ensures quiet { QuietsBy (Grows (C.told console.old).log (C.told console.new).log [])
        (Grows (C.told console.old).log (C.told console.new).log [])
        (C.told console.old) (C.told console.new) result }
    ensures causes { HaltCauses ⊥ (C.told console.old).faults (C.told console.new).faults result }
    ensures done { IfOk result (λ status. status ≡ DONE) }
    ensures halts { IfErr result IsReadHalt }
    ensures deaf { result ≢ Err (Halt.Stopped Stop.Read) }
{
    match pg_gf2::vec_check(alloc, game, certificate) {
        Ok(_) => {
            accept_vectors(console, certificate.claims.as_slice())?;
            Ok(DONE)
        }
        Err(VecFault::Reject { claim, node, why }) => Err(Halt::Refused(
            Refusal::RejectedVectors {
                claim,
                node,
                why: why.number(),
            },
        )),
        Err(VecFault::Memory) => Err(Halt::Stopped(Stop::Memory)),
    }
}

/// Checks the certificate under one name for the game on vectors under another.
pub fn check_vectors<F: Files, C: Console>(
    alloc: Global,
    game: &str,
    certificate: &str,
    files: &mut F,
    console: &mut C,
) -> Result<u8, Halt>
    ensures ran { Runs
        (λ held. RefusesVectorCheck (vectors_both_held (held game.now) (held certificate.now)))
        (λ held done end.
        AcceptsVectors (vectors_both_held (held game.now) (held certificate.now)) done.entries end
        × (done.stored ≡ [])) (F.told files.old) (F.told files.new) (C.told console.old)
        (C.told console.new) result }
    ensures causes { BothCauses (AreVectorsLacking (F.told files.old).held game.now certificate.now)
        (F.told files.old) (F.told files.new) (C.told console.old) (C.told console.new) result }
    ensures quiet { QuietsBy (Grows (C.told console.old).log (C.told console.new).log [])
        (Grows (C.told console.old).log (C.told console.new).log [])
        (C.told console.old) (C.told console.new) result }
    ensures kept { ReadsOnly (F.told files.old) (F.told files.new) }
    ensures done { IfOk result (λ status. status ≡ DONE) }
    ensures halts { IfErr result IsReadHalt }
{
    let both = open_vectors_both(alloc, files, game, certificate)?;
    judge_vectors(alloc, console, &both.0, &both.1)
}
