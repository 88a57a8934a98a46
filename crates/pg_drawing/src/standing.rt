//! Pictures of certificates in either form: of plain nodes, or with images.
ghost use Rattle.std.specs.Prelude.{IfErr, IfOk};
ghost use Rattle.pg_drawing.specs.Prelude.{IsInnerHalt, IsWithinItsLimits};
ghost use Rattle.pg_drawing.specs.Due.{IsEvidenceDue, IsFound};
ghost use Rattle.pg_drawing.specs.Runs.{IsCertEnd};

use crate::name::NodeName;
use crate::picturing::{Telling, tell_certificate};
use pg_captions::Look;
use pg_evidence::{Evidence, standing_of};
use pg_game::Game;
use pg_talk::Halt;
use std::alloc::Global;

/// The picture of a node of the certificate for which this one stands, which is checked first: the
/// first faulty node where it isn't valid. The first fault of its images counts before that.
pub(crate) fn tell_evidence(
    alloc: Global,
    look: Look,
    game: &Game,
    evidence: Evidence,
    name: Option<NodeName>,
) -> Result<Telling, Halt>
    requires { IsWithinItsLimits evidence }
    ensures found { IsFound (IsEvidenceDue look game.now evidence name) result }
    ensures done { IfOk result (λ told. IsCertEnd told.status) }
    ensures halts { IfErr result IsInnerHalt }
{
    let standing = standing_of(alloc, game, evidence)?;
    Ok(tell_certificate(alloc, look, game, &standing.cert, name)?)
}
