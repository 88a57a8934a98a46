//! Feeding a checking with a certificate that is held whole.
ghost use Rattle.std.specs.Prelude.{◌≡◌, ◌++◌, List, map, IfOk};
ghost use Rattle.pg_check.specs.Prelude.{All, IsClaim, claim_parts, all_parts, Part};
ghost use Rattle.pg_check.specs.Checking.{StandsFor, AreNext};

use crate::checking::Checking;
use pg_base::Memory;
use pg_cert::{Claim, Node};
use std::alloc::Global;

/// Feeds nodes of the claim in hand.
fn feed_nodes(checking: &mut Checking, nodes: &[Node]) -> Result<(), Memory>
    requires { AreNext checking.old (map Part.Node nodes.now) }
    ensures game { checking.new.game ≡ checking.old.game }
    ensures stands { IfOk result (λ _. (fed : List Part) → StandsFor checking.old fed
        → StandsFor checking.new (fed ++ map Part.Node nodes.now)) }
{
    for node in nodes {
        checking.node(node)?;
    }
    Ok(())
}

/// Feeds a claim with its nodes.
fn feed_claim(checking: &mut Checking, alloc: Global, claim: &Claim) -> Result<(), Memory>
    requires next { AreNext checking.old (claim_parts claim.now) }
    requires limits { IsClaim claim.now }
    ensures game { checking.new.game ≡ checking.old.game }
    ensures stands { IfOk result (λ _. (fed : List Part) → StandsFor checking.old fed
        → StandsFor checking.new (fed ++ claim_parts claim.now)) }
{
    let nodes = claim.nodes.as_slice();
    checking.claim(
        alloc,
        claim.turn,
        claim.side,
        claim.goal,
        nodes.len() as u32,
    );
    feed_nodes(checking, nodes)
}

/// Feeds claims with their nodes.
pub(crate) fn feed_claims(
    checking: &mut Checking,
    alloc: Global,
    claims: &[Claim],
) -> Result<(), Memory>
    requires next { AreNext checking.old (all_parts claims.now) }
    requires limits { All IsClaim claims.now }
    ensures game { checking.new.game ≡ checking.old.game }
    ensures stands { IfOk result (λ _. (fed : List Part) → StandsFor checking.old fed
        → StandsFor checking.new (fed ++ all_parts claims.now)) }
{
    for claim in claims {
        feed_claim(checking, alloc, claim)?;
    }
    Ok(())
}
