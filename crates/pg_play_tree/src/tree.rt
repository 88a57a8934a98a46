//! The tree of play of a certificate.
ghost use Rattle.std.specs.Prelude.{◌≡◌, ◌≢◌, ◌⊎◌, ◌≤◌, IfOk, IfSome, None, Ok, false, length};
ghost use Rattle.std.specs.Prelude.{min, true};
ghost use Rattle.std.specs.List.{All, AllZip};
ghost use Rattle.pg_play_tree.specs.Prelude.{IsClaim, IsValid, IsWithinLimits, Switching};
ghost use Rattle.pg_play_tree.specs.Prelude.{MAX_CLAIM_NODES, MAX_NODES, chosen_claim, node_count};
ghost use Rattle.pg_play_tree.specs.Lines.{MeetsMore};
ghost use Rattle.pg_play_tree.specs.Places.{IsClaimOf};
ghost use Rattle.pg_play_tree.specs.Unplayed.{IsLarge, IsTooLarge, IsUnplayed};
ghost use Rattle.pg_play_tree.specs.Tree.{IsClaimTree, IsPlayTree, IsPlayed, has_sets};
ghost use Rattle.pg_play_tree.specs.Tree.{is_by_sets, some_by_sets};

use crate::exploring::explore;
use crate::nodes::nodes_of;
use crate::turned::turned_copy;
use pg_base::{Kind, Memory};
use pg_cert::{Body, Cert, Claim, Claims, MAX_CLAIM_NODES, MAX_NODES, Node, Nodes, Version};
use pg_check::{CheckFault, Checked, check, faults_are_told};
use pg_game::Game;
use std::alloc::Global;

/// Whether the node rests on two trees or two cuts.
fn is_by_sets(node: &Node) -> bool
    ensures { result ≡ is_by_sets node.now.body }
{
    matches!(&node.body, Body::Trees { .. } | Body::Cuts { .. })
}

/// Whether some node of the claim does.
fn some_by_sets(claim: &Claim) -> bool
    ensures { result ≡ some_by_sets claim.now }
{
    claim.nodes.as_slice().iter().any(|node| is_by_sets(node))
}

/// Whether some node of the certificate does.
fn has_sets(cert: &Cert) -> bool
    ensures { result ≡ has_sets cert.now }
{
    cert.claims
        .as_slice()
        .iter()
        .any(|claim| some_by_sets(claim))
}

/// Returns the claim shown by the moves of its side's player in this game, in which the claim's
/// turn is the turn. None if that has more than `most` nodes.
fn played_claim(
    alloc: Global,
    checked: Checked<'_>,
    claim: &Claim,
    most: u32,
) -> Result<Option<Claim>, Memory>
    requires { chosen_claim checked.game.now checked.cert.now claim.now.side ≢ None }
    ensures played { IfOk result (λ found. IfSome found
        (IsPlayed checked.entry.game.now checked.entry.cert.now claim.now)) }
    ensures limits { IfOk result (λ found. IfSome found IsClaim) }
    ensures few { IfOk result (λ found. IfSome found (λ tree. length tree.nodes ≤ most)) }
    ensures many { result ≡ Ok None → MeetsMore checked.entry.game.now checked.entry.cert.now
        claim.now.side (min most MAX_CLAIM_NODES) }
{
    let limit = most.min(MAX_CLAIM_NODES);
    let Some(places) = explore(alloc, checked, claim.side, limit as usize)? else {
        return Ok(None);
    };
    let nodes = nodes_of(alloc, checked.game, places.as_slice())?;
    Ok(Some(Claim {
        turn: claim.turn,
        side: claim.side,
        goal: claim.goal,
        nodes: Nodes::from_vec(nodes),
    }))
}

/// Returns the tree of play of a claim, and None if it has more than `most` nodes.
fn claim_tree(
    alloc: Global,
    checked: Checked<'_>,
    claim: &Claim,
    most: u32,
) -> Result<Option<Claim>, Memory>
    requires kind { checked.game.now.kind ≡ Switching }
    requires limits { IsWithinLimits checked.cert.now }
    requires claim { IsClaimOf claim.now checked.cert.now }
    ensures tree { IfOk result (λ found. IfSome found
        (IsClaimTree checked.entry.game.now checked.entry.cert.now claim.now)) }
    ensures limits { IfOk result (λ found. IfSome found IsClaim) }
    ensures few { IfOk result (λ found. IfSome found (λ tree. length tree.nodes ≤ most)) }
    ensures many { result ≡ Ok None
        → IsLarge checked.entry.game.now checked.entry.cert.now claim.now most }
{
    faults_are_told();
    let turned = turned_copy(alloc, checked.game, claim.turn)?;
    match check(alloc, &turned, checked.cert) {
        Ok(at_turn) => played_claim(alloc, at_turn, claim, most),
        Err(CheckFault::Reject { .. }) => Ok(None),
        Err(CheckFault::Memory) => Err(Memory),
    }
}

/// Returns the trees of play of all claims, and None if they have more than `most` nodes together.
fn claim_trees(alloc: Global, checked: Checked<'_>, most: u32) -> Result<Option<Vec<Claim>>, Memory>
    requires kind { checked.game.now.kind ≡ Switching }
    requires limits { IsWithinLimits checked.cert.now }
    ensures trees { IfOk result (λ found. IfSome found
        (λ trees. AllZip (IsClaimTree checked.entry.game.now checked.entry.cert.now)
        checked.entry.cert.now.claims trees.items)) }
    ensures limits { IfOk result (λ found. IfSome found (λ trees. All IsClaim trees.items)) }
    ensures few { IfOk result (λ found. IfSome found (λ trees. node_count trees.items ≤ most)) }
    ensures many { result ≡ Ok None
        → IsTooLarge checked.entry.game.now checked.entry.cert.now most }
{
    let claims = checked.cert.claims.as_slice();
    let mut trees = Vec::new(alloc);
    let mut left = most;
    for claim in claims {
        let Some(tree) = claim_tree(alloc, checked, claim, left)? else {
            return Ok(None);
        };
        left -= tree.nodes.as_slice().len() as u32;
        trees.push(tree)?;
    }
    Ok(Some(trees))
}

/// Whether the certificate is valid for the game.
fn is_valid(alloc: Global, game: &Game, cert: &Cert) -> Result<bool, Memory>
    requires { IsWithinLimits cert.now }
    ensures valid { IfOk result (λ valid. valid ≡ true → IsValid game.now cert.now) }
    ensures faulty { result ≡ Ok false → IsValid game.now cert.now → ⊥ }
{
    faults_are_told();
    match check(alloc, game, cert) {
        Ok(_) => Ok(true),
        Err(CheckFault::Reject { .. }) => Ok(false),
        Err(CheckFault::Memory) => Err(Memory),
    }
}

/// Returns the tree of play of a switching game's certificate: the same claims, each shown by the
/// moves of its side's player against every reply, down to the end of the game. It has at most
/// `most` nodes, and a position that comes again is one node.
///
/// A claim is played by `Player` in the game in which the claim's turn is the turn. If several
/// claims have the same side and turn, all are played by the one that `Player::open` chooses.
///
/// None comes for games of other kinds and if no node rests on trees or cuts. It also comes if
/// there would be more than `most` nodes. That the tree which is found is never refused by the
/// checker isn't proved. The time grows with the square of the number of nodes.
///
/// # Errors
///
/// `Memory` if memory runs out.
pub fn play_tree(alloc: Global, checked: Checked<'_>, most: u32) -> Result<Option<Cert>, Memory>
    requires { IsWithinLimits checked.cert.now }
    ensures tree { IfOk result (λ found. IfSome found
        (IsPlayTree checked.entry.game.now checked.entry.cert.now)) }
    ensures valid { IfOk result (λ found. IfSome found (IsValid checked.entry.game.now)) }
    ensures limits { IfOk result (λ found. IfSome found IsWithinLimits) }
    ensures few { IfOk result
        (λ found. IfSome found (λ tree. node_count tree.claims ≤ most)) }
    ensures without { (checked.entry.game.now.kind ≢ Switching)
        ⊎ (has_sets checked.entry.cert.now ≡ false)
        → result ≡ Ok None }
    ensures none { result ≡ Ok None
        → IsUnplayed checked.entry.game.now checked.entry.cert.now (min most MAX_NODES) }
{
    if checked.game.kind != Kind::Switching {
        return Ok(None);
    }
    if !has_sets(checked.cert) {
        return Ok(None);
    }
    let Some(trees) = claim_trees(alloc, checked, most.min(MAX_NODES))? else {
        return Ok(None);
    };
    let tree = Cert {
        version: Version::One,
        claims: Claims::from_vec(trees),
    };
    if !is_valid(alloc, checked.game, &tree)? {
        return Ok(None);
    }
    Ok(Some(tree))
}
