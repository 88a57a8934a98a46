//! The joined proof of a game.
ghost use Rattle.std.specs.Prelude.{IfOk, IfSome};
ghost use Rattle.pg_cert.specs.Limits.{IsWithinLimits};

use crate::choosing::{Choice, Target, choices_of};
use crate::folder::{Folder, Found};
use crate::limits::is_within_limits;
use crate::nodes::Nodes;
use pg_backing::{View, body_for};
use pg_base::{Goal, Memory, Score, Side};
use pg_cert::{Body, Cert, Claim, Replies, Reply};
use pg_game::Position;
use pg_image::{ImageCert, ImageClaim, ImageClaims};
use pg_io::Files;
use pg_maps::GridMap;
use pg_plan::{Place, Step};
use pg_unfold::{ImageFault, unfold};
use std::alloc::Global;

/// A claim in the making: its nodes, and the number of the node for each position of the plan.
#[derive(Debug, Drop)]
struct Draft {
    nodes: Nodes,
    numbers: Vec<Option<u32>>,
}

impl Draft {
    /// Returns the number of the node for a position.
    fn number(&self, place: u32) -> Option<u32> {
        let i = place as usize;
        if i < self.numbers.len() {
            self.numbers[i]
        } else {
            None
        }
    }

    /// Returns the replies of all moves in the order of their points, if the position after each
    /// has a node.
    fn replies(&self, alloc: Global, steps: &[Step]) -> Result<Option<Vec<Reply>>, Memory> {
        let mut replies = Vec::new(alloc);
        for point in 0..1_024u16 {
            if let Some(step) = step_to(steps, point) {
                let Some(child) = self.number(step.place) else {
                    return Ok(None);
                };
                replies.push(Reply { point, child })?;
            }
        }
        Ok(Some(replies))
    }

    /// Adds a node for a position by a move or by all moves.
    fn put_steps(
        &mut self,
        alloc: Global,
        position: &Position,
        steps: &[Step],
        choice: Choice,
    ) -> Result<Option<u32>, Memory> {
        let body = match choice {
            Choice::Move(k) if k < steps.len() => match self.number(steps[k].place) {
                Some(child) => Body::Move {
                    point: steps[k].point,
                    child,
                },
                None => return Ok(None),
            },
            Choice::All => match self.replies(alloc, steps)? {
                Some(replies) => Body::All(Replies::from_vec(replies)),
                None => return Ok(None),
            },
            _ => return Ok(None),
        };
        self.nodes.put(position, body)
    }

    /// Adds a node for an image.
    fn put_image(
        &mut self,
        position: &Position,
        map: u8,
        place: u32,
    ) -> Result<Option<u32>, Memory> {
        let Some(map) = GridMap::from_number(map) else {
            return Ok(None);
        };
        match self.number(place) {
            Some(child) => self.nodes.put_image(position, map, child),
            None => Ok(None),
        }
    }
}

/// Returns the move to a point.
fn step_to(steps: &[Step], point: u16) -> Option<Step> {
    for step in steps {
        if step.point == point {
            return Some(*step);
        }
    }
    None
}

/// Returns the claim by which a certificate shows the target with this turn: for the goal, or for
/// the win.
fn claim_for(claims: &[Claim], turn: Side, target: Target) -> Option<&Claim> {
    for claim in claims {
        if claim.turn == turn && claim.side == target.side {
            if claim.goal == target.goal || claim.goal == Goal::Win {
                return Some(claim);
            }
        }
    }
    None
}

/// Adds the nodes of a certificate.
fn put_certificate<F: Files + Drop>(
    alloc: Global,
    view: &View<'_>,
    position: &Position,
    file: u32,
    target: Target,
    folder: &mut Folder<'_, F>,
    nodes: &mut Nodes,
) -> Result<Option<u32>, Memory> {
    let found = folder.certificate(alloc, view.game, file)?;
    let Found::Certificate(certificate) = found else {
        return Ok(None);
    };
    match claim_for(certificate.claims.as_slice(), position.turn, target) {
        Some(claim) => nodes.append(alloc, claim.nodes.as_slice()),
        None => Ok(None),
    }
}

/// Adds a node for the position of number `i`, as it is chosen. None if that can't be.
fn put_at<F: Files + Drop>(
    alloc: Global,
    view: &View<'_>,
    i: usize,
    choice: Choice,
    target: Target,
    folder: &mut Folder<'_, F>,
    draft: &mut Draft,
) -> Result<Option<u32>, Memory> {
    let Some(position) = view.position(i) else {
        return Ok(None);
    };
    if i >= view.plan.len() {
        return Ok(None);
    }
    match &view.plan[i] {
        Place::Decided => {
            match body_for(alloc, view.game, &position, target.side, target.goal)? {
                Some(body) => draft.nodes.put(&position, body),
                None => Ok(None),
            }
        }
        Place::Image { map, place } => draft.put_image(&position, *map, *place),
        Place::Game { file, steps } => {
            if choice == Choice::Certificate {
                let nodes = &mut draft.nodes;
                return put_certificate(alloc, view, &position, *file, target, folder, nodes);
            }
            draft.put_steps(alloc, &position, steps.as_slice(), choice)
        }
        Place::Moves(steps) => draft.put_steps(alloc, &position, steps.as_slice(), choice),
    }
}

/// Returns the claim that the side reaches the goal, by the proofs of the positions on which that
/// rests; or None if one of them isn't there, or the claim gets too large.
fn claim_of<F: Files + Drop>(
    alloc: Global,
    view: &View<'_>,
    target: Target,
    folder: &mut Folder<'_, F>,
) -> Result<Option<ImageClaim>, Memory> {
    let choices = choices_of(alloc, view, target)?;
    let mut draft = Draft {
        nodes: Nodes::new(alloc),
        numbers: Vec::with_capacity(alloc, choices.len())?,
    };
    for i in 0..choices.len() {
        let choice = choices[i];
        let mut number = None;
        if choice != Choice::Unused {
            number = put_at(alloc, view, i, choice, target, folder, &mut draft)?;
            if number.is_none() {
                return Ok(None);
            }
        }
        draft.numbers.push(number)?;
    }
    Ok(Some(ImageClaim {
        turn: view.game.turn,
        side: target.side,
        goal: target.goal,
        nodes: draft.nodes.into_nodes(),
    }))
}

/// Returns that the side reaches the goal, as what is to be shown.
fn target(side: Side, goal: Goal) -> Target {
    Target { side, goal }
}

/// Returns what is to be shown for a score, in the order of the claims.
fn targets(alloc: Global, score: Score) -> Result<Vec<Target>, Memory> {
    let mut targets = Vec::new(alloc);
    match score {
        Score::XWins => targets.push(target(Side::X, Goal::Win))?,
        Score::YWins => targets.push(target(Side::Y, Goal::Win))?,
        Score::Draw => {
            targets.push(target(Side::Y, Goal::Draw))?;
            targets.push(target(Side::X, Goal::Draw))?;
        }
    }
    Ok(targets)
}

/// Returns the certificate of plain nodes that the root of each claim reaches.
fn plain(alloc: Global, view: &View<'_>, claims: Vec<ImageClaim>) -> Result<Option<Cert>, Memory>
    ensures { IfOk result (λ found. IfSome found IsWithinLimits) }
{
    let joined = ImageCert {
        claims: ImageClaims::from_vec(claims),
    };
    if !is_within_limits(&joined) {
        return Ok(None);
    }
    match unfold(alloc, view.game, &joined) {
        Ok(unfolded) => Ok(Some(unfolded.cert)),
        Err(ImageFault::Bad { .. }) => Ok(None),
        Err(ImageFault::Memory) => Err(Memory),
    }
}

/// Returns a certificate that is to show the score, by the proofs of the positions on which that
/// rests; or None if one of them isn't there, or the certificate gets too large.
pub(crate) fn certificate_for<F: Files + Drop>(
    alloc: Global,
    view: &View<'_>,
    score: Score,
    folder: &mut Folder<'_, F>,
) -> Result<Option<Cert>, Memory>
    ensures { IfOk result (λ found. IfSome found IsWithinLimits) }
{
    let mut claims = Vec::new(alloc);
    for target in targets(alloc, score)? {
        let Some(claim) = claim_of(alloc, view, target, folder)? else {
            return Ok(None);
        };
        claims.push(claim)?;
    }
    plain(alloc, view, claims)
}
