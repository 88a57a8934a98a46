//! Certificates folded.
ghost use Rattle.std.specs.Prelude.{◌≡◌, ◌<◌, ◌^◌, ◌+◌, ◌++◌, ◌∷◌, [], List, Some, length};
ghost use Rattle.std.specs.Prelude.{if◌then◌else◌, IfOk, OnOk};
ghost use Rattle.pg_fold.specs.Prelude.{get, All, AllZip, IsClaim, IsWithinLimits, IsValid, Node};
ghost use Rattle.pg_fold.specs.Prelude.{equal_positions, Game, Position, IsImageWithinLimits};
ghost use Rattle.pg_fold.specs.Prelude.{Image, Plain};
ghost use Rattle.pg_fold.specs.Codes.{IsKnown};
ghost use Rattle.pg_fold.specs.Folded.{DifferInPosition, IsFolded, IsFoldedClaim};
ghost use Rattle.pg_fold.specs.Places.{AreAllFolded, AreFoldable, AreFolded, HaveDifferent};
ghost use Rattle.pg_fold.specs.Places.{IsFoldable};
ghost use Rattle.pg_fold.specs.Tables.{AreOrdered, AreTables};

use crate::copying::copy_node;
use crate::known::Known;
use crate::original::{Original, original_of};
use crate::single::{have_one_node, stay_claims};
use crate::tables::{MapTable, fitting_tables};
use pg_base::Memory;
use pg_cert::{Cert, Claim, Node};
use pg_game::{Game, Position};
use pg_image::{ImageCert, ImageClaim, ImageClaims, ImageNode, ImageNodes};
use std::alloc::Global;

/// The certificate in which each node whose position is the image of an earlier node's, under a map
/// of the board that fits, is said as the image of the first such node that is left plain, under
/// the map of the lowest number that does.
///
/// # Errors
///
/// `Memory` where no memory is found.
pub fn fold(alloc: Global, g: &Game, c: &Cert) -> Result<ImageCert, Memory>
    requires valid { IsValid g.now c.now }
    requires limits { IsWithinLimits c.now }
    requires differ { DifferInPosition c.now }
    ensures folded { IfOk result (λ d. IsFolded g.now c.now d) }
    ensures limits { IfOk result IsImageWithinLimits }
{
    let claims = c.claims.as_slice();
    let folded = if have_one_node(claims) {
        stay_claims(alloc, claims)?
    } else {
        let tables = fitting_tables(alloc, g)?;
        fold_claims(alloc, tables.as_slice(), claims)?
    };
    Ok(ImageCert {
        claims: ImageClaims::from_vec(folded),
    })
}

/// The claims folded.
fn fold_claims(
    alloc: Global,
    tables: &[MapTable],
    claims: &[Claim],
) -> Result<Vec<ImageClaim>, Memory>
    requires ordered { AreOrdered tables.now }
    requires limits { All IsClaim claims.now }
    ensures { IfOk result (λ folded. (g : Game) → AreTables g tables.now
        → AreFoldable g claims.now
        → AllZip (IsFoldedClaim g) claims.now folded.items) }
{
    let mut folded = Vec::with_capacity(alloc, claims.len())?;
    for claim in claims {
        let next = fold_claim(alloc, tables, claim)?;
        folded.push(next)?;
    }
    Ok(folded)
}

/// The claim folded.
fn fold_claim(alloc: Global, tables: &[MapTable], claim: &Claim) -> Result<ImageClaim, Memory>
    requires ordered { AreOrdered tables.now }
    requires limits { IsClaim claim.now }
    ensures { IfOk result (λ d. (g : Game) → AreTables g tables.now → IsFoldable g claim.now
        → IsFoldedClaim g claim.now d) }
{
    let nodes = fold_nodes(alloc, tables, claim.nodes.as_slice())?;
    Ok(ImageClaim {
        turn: claim.turn,
        side: claim.side,
        goal: claim.goal,
        nodes: ImageNodes::from_vec(nodes),
    })
}

/// The nodes folded.
fn fold_nodes(alloc: Global, tables: &[MapTable], nodes: &[Node]) -> Result<Vec<ImageNode>, Memory>
    requires ordered { AreOrdered tables.now }
    requires few { length nodes.now < 2 ^ 32 }
    ensures { IfOk result (λ folded. (g : Game) → AreTables g tables.now
        → HaveDifferent g nodes.now
        → AreAllFolded g nodes.now folded.items) }
{
    let mut known = Known::new(alloc, nodes.len())?;
    let mut folded = Vec::with_capacity(alloc, nodes.len())?;
    for node in nodes {
        fold_node(alloc, tables, node, &mut known, &mut folded)?;
    }
    Ok(folded)
}

/// Adds what the node becomes, after those that the nodes before it have become.
fn fold_node(
    alloc: Global,
    tables: &[MapTable],
    node: &Node,
    known: &mut Known,
    folded: &mut Vec<ImageNode>,
) -> Result<(), Memory>
    requires ordered { AreOrdered tables.now }
    requires few { length folded.old.items < 2 ^ 32 }
    requires known { IsKnown known.old }
    ensures known { OnOk result (IsKnown known.new) }
    ensures count { OnOk result (length folded.new.items ≡ length folded.old.items + 1) }
    ensures folded { OnOk result ((g : Game) → AreTables g tables.now
        → (before : List Node)
        → AreFolded g before (get equal_positions known.old.places) folded.old.items
        → HaveDifferent g (before ++ node.now ∷ [])
        → AreFolded g (before ++ node.now ∷ [])
        (get equal_positions known.new.places) folded.new.items) }
{
    let p = node.position();
    match original_of(alloc, tables, known, &p)? {
        Some(original) => add_image(node, original, folded),
        None => add_plain(alloc, node, p, known, folded),
    }
}

/// Adds the node as the image of the other one.
fn add_image(node: &Node, original: Original, folded: &mut Vec<ImageNode>) -> Result<(), Memory>
    ensures { OnOk result
        (folded.new.items ≡ folded.old.items ++ Image node.now.x node.now.y node.now.turn
        node.now.left original.map original.node ∷ []) }
{
    folded.push(ImageNode::Image {
        x: node.x,
        y: node.y,
        turn: node.turn,
        left: node.left,
        map: original.map,
        child: original.node,
    })?;
    Ok(())
}

/// Adds the node as it is, and keeps its place by its position.
fn add_plain(
    alloc: Global,
    node: &Node,
    position: Position,
    known: &mut Known,
    folded: &mut Vec<ImageNode>,
) -> Result<(), Memory>
    requires few { length folded.old.items < 2 ^ 32 }
    requires known { IsKnown known.old }
    ensures known { OnOk result (IsKnown known.new) }
    ensures pushed { OnOk result (folded.new.items ≡ folded.old.items ++ Plain node.now ∷ []) }
    ensures kept { OnOk result
        ((p : Position) → get equal_positions known.new.places p ≡ (if equal_positions position p
        then Some (length folded.old.items)
        else get equal_positions known.old.places p)) }
{
    known.add(position, folded.len() as u32)?;
    let same = copy_node(alloc, node)?;
    folded.push(ImageNode::Plain(same))?;
    Ok(())
}
