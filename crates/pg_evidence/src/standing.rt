//! The certificate for which one as its file says it stands.
ghost use Rattle.std.specs.Prelude.{◌≡◌, ℕ, Err, IfErr, IfOk};
ghost use Rattle.pg_cert.specs.Valid.{IsValid};
ghost use Rattle.pg_evidence.specs.Evidence.{IsInnerHalt, IsWithinItsLimits};
ghost use Rattle.pg_evidence.specs.Standing.{CameFromIn, HasFaultIn, HasSource, IsTraced};
ghost use Rattle.pg_evidence.specs.Standing.{MakesStanding};

use crate::evidence::Evidence;
use pg_cert::Cert;
use pg_check::{CheckFault, Checked, check};
use pg_game::Game;
use pg_io::Stop;
use pg_messages::Refusal;
use pg_talk::Halt;
use pg_unfold::{ImageFault, Sources, Unfolded, unfold};
use std::alloc::Global;

/// The certificate of plain nodes for which one as its file says it stands.
#[derive(Debug, Drop)]
pub struct Standing {
    /// The certificate.
    pub cert: Cert,
    /// From which node of the file's each of its nodes came, where it was unfolded.
    pub sources: Option<Sources>,
}

impl From<Unfolded> for Standing {
    ghost use Rattle.std.specs.Prelude.{◌≡◌, Some};

    ghost from_gives = { λ unfolded standing. standing
        ≡ record { cert = unfolded.cert; sources = Some unfolded.sources } };

    fn from(unfolded: Unfolded) -> Standing {
        Standing {
            cert: unfolded.cert,
            sources: Some(unfolded.sources),
        }
    }
}

impl Standing {
    /// The number of the file's node from which the one at this place of a claim came.
    fn source(&self, claim: u32, place: u32) -> u32
        requires { HasSource self.now.sources claim place }
        ensures { CameFromIn self.now.sources claim place result }
    {
        match &self.sources {
            None => place,
            Some(sources) => sources.as_slice()[claim as usize].as_slice()[place as usize],
        }
    }
}

/// The certificate for which this one stands in a game: itself, or its unfolding.
///
/// # Errors
///
/// `Halt::Refused` with `RejectedImage` exactly where it stands for none, with its first fault (I1
/// to I4). Else `Halt::Stopped` with `Stop::Memory` where no memory is found.
pub fn standing_of(alloc: Global, game: &Game, evidence: Evidence) -> Result<Standing, Halt>
    requires { IsWithinItsLimits evidence }
    ensures made { MakesStanding game.now evidence result }
    ensures traced { IfOk result IsTraced }
    ensures halts { IfErr result IsInnerHalt }
{
    let certificate = match evidence {
        Evidence::Plain(cert) => {
            return Ok(Standing {
                cert,
                sources: None,
            });
        }
        Evidence::Folded(certificate) => certificate,
    };
    match unfold(alloc, game, &certificate) {
        Ok(unfolded) => Ok(Standing::from(unfolded)),
        Err(ImageFault::Bad { claim, node, why }) => {
            Err(Halt::Refused(Refusal::RejectedImage { claim, node, why }))
        }
        Err(ImageFault::Memory) => Err(Halt::Stopped(Stop::Memory)),
    }
}

/// Checks the certificate for which one as its file says it stands, as `check` does.
///
/// # Errors
///
/// `Reject` exactly where it isn't valid, with its first fault; the node is the file's, from which
/// the faulty one came. Else `Memory` where no memory is found.
pub fn check_standing<'a>(
    alloc: Global,
    game: &'a Game,
    standing: &'a Standing,
) -> Result<Checked<'a>, CheckFault>
    requires { IsTraced standing.now }
    ensures game { IfOk result (λ checked. checked.game.now ≡ game.now) }
    ensures cert { IfOk result (λ checked. checked.cert.now ≡ standing.now.cert) }
    ensures valid { IfOk result (λ _. IsValid game.now standing.now.cert) }
    ensures reject { (claim : ℕ) → (node : ℕ) → (why : ℕ)
        → result ≡ Err (CheckFault.Reject claim node why)
        → HasFaultIn game.now standing.now claim node why }
{
    match check(alloc, game, &standing.cert) {
        Ok(checked) => Ok(checked),
        Err(CheckFault::Reject { claim, node, why }) => Err(CheckFault::Reject {
            claim,
            node: standing.source(claim, node),
            why,
        }),
        Err(CheckFault::Memory) => Err(CheckFault::Memory),
    }
}
