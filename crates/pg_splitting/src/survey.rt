//! What the certificates in a folder say of the positions of a plan.
ghost use Rattle.pg_io.specs.Files.{ReadsOnly};
ghost use Rattle.pg_splitting.specs.Looking.{LookCauses};

use crate::looking::read_if_there;
use pg_backing::{Lack, Own, Span, View, decided, needs_of, positions_of, spans_of};
use pg_base::{Memory, Side};
use pg_cert::Claim;
use pg_cert_files::{CertFault, MAX_CERT_BYTES, read_cert};
use pg_game::{Game, Position};
use pg_image::{ImageClaim, read_image};
use pg_io::{Files, Stop};
use pg_plan::{Place, Plan, cert_name};
use std::alloc::Global;

/// Returns what the claims with this turn say of the value. Nobody has judged them.
fn said_by(claims: &[Claim], turn: Side) -> Span {
    let mut span = Span::open();
    for claim in claims {
        if claim.turn == turn {
            span = span.meet(Span::reached(claim.side, claim.goal));
        }
    }
    span
}

/// Returns what the claims with this turn say of the value, where nodes may be images.
fn said_by_images(claims: &[ImageClaim], turn: Side) -> Span {
    let mut span = Span::open();
    for claim in claims {
        if claim.turn == turn {
            span = span.meet(Span::reached(claim.side, claim.goal));
        }
    }
    span
}

/// Returns what a certificate with images says of the value.
fn own_by_images(alloc: Global, text: &[u8], turn: Side) -> Result<Own, Memory> {
    match read_image(alloc, text) {
        Ok(certificate) => {
            let span = said_by_images(certificate.claims.as_slice(), turn);
            Ok(Own::Says(span))
        }
        Err(CertFault::Bad { .. }) => Ok(Own::Lacks(Lack::Faulty)),
        Err(CertFault::Memory) => Err(Memory),
    }
}

/// Returns what a certificate says of the value of a position with this turn.
fn own_by(alloc: Global, text: &[u8], turn: Side) -> Result<Own, Memory> {
    match read_cert(alloc, text) {
        Ok(certificate) => {
            let span = said_by(certificate.claims.as_slice(), turn);
            Ok(Own::Says(span))
        }
        Err(CertFault::Bad { .. }) => own_by_images(alloc, text, turn),
        Err(CertFault::Memory) => Err(Memory),
    }
}

/// Returns what the certificate of this number says, if there is one.
fn own_in<F: Files>(
    alloc: Global,
    folder: &str,
    file: u32,
    turn: Side,
    files: &mut F,
) -> Result<Own, Stop>
    ensures causes { LookCauses (F.told files.old).faults (F.told files.new).faults result }
    ensures kept { ReadsOnly (F.told files.old) (F.told files.new) }
{
    let name = cert_name(alloc, folder, file)?;
    let found = read_if_there(alloc, files, name.as_str(), MAX_CERT_BYTES)?;
    let Some(text) = found else {
        return Ok(Own::Lacks(Lack::Missing));
    };
    let own = own_by(alloc, &text, turn)?;
    Ok(own)
}

/// Returns what is known of a position by itself.
fn own_at<F: Files>(
    alloc: Global,
    game: &Game,
    folder: &str,
    place: &Place,
    position: Option<Position>,
    files: &mut F,
) -> Result<Own, Stop>
    ensures causes { LookCauses (F.told files.old).faults (F.told files.new).faults result }
    ensures kept { ReadsOnly (F.told files.old) (F.told files.new) }
{
    let Some(position) = position else {
        return Ok(Own::Nothing);
    };
    match place {
        Place::Decided => {
            let span = decided(alloc, game, &position)?;
            Ok(Own::Says(span))
        }
        Place::Game { file, .. } => own_in(alloc, folder, *file, position.turn, files),
        Place::Image { .. } | Place::Moves(_) => Ok(Own::Nothing),
    }
}

/// Returns what is known of each position by itself.
fn survey<F: Files>(
    alloc: Global,
    game: &Game,
    folder: &str,
    plan: &[Place],
    positions: &[Option<Position>],
    files: &mut F,
) -> Result<Vec<Own>, Stop>
    ensures causes { LookCauses (F.told files.old).faults (F.told files.new).faults result }
    ensures kept { ReadsOnly (F.told files.old) (F.told files.new) }
{
    let mut own = Vec::with_capacity(alloc, plan.len())?;
    for i in 0..plan.len().min(positions.len()) {
        let next = own_at(alloc, game, folder, &plan[i], positions[i], files)?;
        if own.push(next).is_err() {
            return Err(Stop::Memory);
        }
    }
    Ok(own)
}

/// Returns the numbers of the game files that are needed, by what the certificates say.
fn needed(
    alloc: Global,
    game: &Game,
    plan: &[Place],
    positions: &[Option<Position>],
    own: &[Own],
) -> Result<Vec<u32>, Memory> {
    let spans = spans_of(alloc, game, plan, positions, own)?;
    let view = View {
        game,
        plan,
        positions,
        own,
        spans: spans.as_slice(),
    };
    let needs = needs_of(alloc, &view)?;
    let mut files = Vec::with_capacity(alloc, needs.len())?;
    for need in &needs {
        files.push(need.file)?;
    }
    Ok(files)
}

/// Returns the numbers of the game files of a plan whose positions stayed unknown and can still
/// matter, the most telling first.
pub(crate) fn files_needed<F: Files>(
    alloc: Global,
    game: &Game,
    folder: &str,
    plan: &Plan,
    files: &mut F,
) -> Result<Vec<u32>, Stop>
    ensures causes { LookCauses (F.told files.old).faults (F.told files.new).faults result }
    ensures kept { ReadsOnly (F.told files.old) (F.told files.new) }
{
    let plan = plan.as_slice();
    let positions = positions_of(alloc, game, plan)?;
    let own = survey(alloc, game, folder, plan, &positions, files)?;
    let needed = needed(alloc, game, plan, &positions, &own)?;
    Ok(needed)
}
