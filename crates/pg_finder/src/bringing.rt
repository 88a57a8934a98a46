//! Certificates of one claim and of two, as what is found.
ghost use Rattle.std.specs.Prelude.{◌≡◌, [], ◌∷◌, IfOk, length};
ghost use Rattle.pg_base.specs.declared.score.Score.TheVariants.{Draw};
ghost use Rattle.pg_cert.specs.Limits.{IsClaim, IsOfVersion};
ghost use Rattle.pg_cert.specs.declared.cert.Version.TheVariants.{One};
ghost use Rattle.pg_settle.specs.Findings.{IsWritable};
ghost use Rattle.pg_solve.specs.Due.{due_for_value, heading};
ghost use Rattle.pg_finder.specs.Findings.{IsFound};

use pg_base::{Memory, Score};
use pg_cert::{Claim, Version};
use pg_game::Game;
use pg_lehman::{one_claim, two_claims};
use pg_settle::{Budget, Finding};
use std::alloc::Global;

/// How many nodes the claim has.
fn size(claim: &Claim) -> usize
    ensures { result ≡ length claim.now.nodes }
{
    claim.nodes.as_slice().len()
}

/// A certificate of the claim for the score, if the claim has no more nodes than the budget allows.
pub(crate) fn found_by_one(
    alloc: Global,
    game: &Game,
    budget: Budget,
    score: Score,
    version: Version,
    claim: Claim,
) -> Result<Finding, Memory>
    requires limits { IsClaim claim }
    requires bodies { IsOfVersion version claim }
    requires due { heading claim ∷ [] ≡ due_for_value game.now.turn score }
    ensures writable { IfOk result IsWritable }
    ensures found { IfOk result (IsFound game.now budget) }
{
    if size(&claim) > budget.nodes as usize {
        return Ok(Finding::Open);
    }
    let mut certificate = one_claim(alloc, claim)?;
    certificate.version = version;
    Ok(Finding::Certificate { score, certificate })
}

/// A certificate of both claims for a draw, if they have no more nodes together than the budget
/// allows.
pub(crate) fn found_by_two(
    alloc: Global,
    game: &Game,
    budget: Budget,
    denial: Claim,
    claim: Claim,
) -> Result<Finding, Memory>
    requires denial { IsClaim denial }
    requires claim { IsClaim claim }
    requires denial_bodies { IsOfVersion One denial }
    requires claim_bodies { IsOfVersion One claim }
    requires due { heading denial ∷ heading claim ∷ [] ≡ due_for_value game.now.turn Draw }
    ensures writable { IfOk result IsWritable }
    ensures found { IfOk result (IsFound game.now budget) }
{
    if size(&denial) + size(&claim) > budget.nodes as usize {
        return Ok(Finding::Open);
    }
    let certificate = two_claims(alloc, denial, claim)?;
    Ok(Finding::Certificate {
        score: Score::Draw,
        certificate,
    })
}
