//! Claims in which the nodes near the game's start come last.
ghost use Rattle.std.specs.Prelude.{◌≡◌, ◌≤◌, ◌<◌, ◌^◌, ◌++◌, ◌∷◌, [], IfOk, OnOk, cond, filter};
ghost use Rattle.std.specs.Prelude.{length, map};
ghost use Rattle.std.specs.List.{All};
ghost use Rattle.pg_cert.specs.declared.limits.TheConstants.{MAX_CLAIM_NODES};
ghost use Rattle.pg_near.specs.Near.{arranged, arranged_claim, arranged_nodes, is_near, moved};
ghost use Rattle.pg_near.specs.Near.{next_place, passes, places_of};

use crate::moving::move_node;
use crate::nearness::{is_near, near_count};
use pg_base::Memory;
use pg_cert::{Cert, Claim, Claims, Node, Nodes};
use pg_game::Game;
use std::alloc::Global;

/// The new number of the next node.
fn next_place(near: bool, next_far: u32, next_near: u32) -> u32
    ensures { result ≡ next_place near next_far next_near }
{
    if near { next_near } else { next_far }
}

/// The new numbers of nodes.
fn places_of(alloc: Global, game: &Game, depth: u32, nodes: &[Node]) -> Result<Vec<u32>, Memory>
    requires { length nodes.now ≤ MAX_CLAIM_NODES }
    ensures { IfOk result (λ places. places.items ≡ places_of (is_near game.now depth) nodes.now) }
{
    let mut next_far = 0;
    let mut next_near = nodes.len() as u32 - near_count(game, depth, nodes);
    let mut places = Vec::new(alloc);
    for node in nodes {
        let near = is_near(game, depth, node);
        places.push(next_place(near, next_far, next_near))?;
        next_far += u32::from(!near);
        next_near += u32::from(near);
    }
    Ok(places)
}

/// Whether a node is one of those that are wanted: the near ones, or the others.
fn passes(wanted: bool, near: bool) -> bool
    ensures { result ≡ passes wanted near }
{
    if wanted { near } else { !near }
}

/// Adds a copy of a node if it passes.
fn push_node(
    alloc: Global,
    out: &mut Vec<Node>,
    node: &Node,
    places: &[u32],
    passes: bool,
) -> Result<(), Memory>
    ensures { OnOk result
        (out.new.items ≡ out.old.items ++ map (moved places.now) (cond passes (node.now ∷ []) [])) }
{
    if !passes {
        return Ok(());
    }
    let copy = move_node(alloc, node, places)?;
    out.push(copy)?;
    Ok(())
}

/// Adds copies of the nodes that are wanted: the near ones, or the others.
fn push_nodes(
    alloc: Global,
    out: &mut Vec<Node>,
    game: &Game,
    depth: u32,
    nodes: &[Node],
    places: &[u32],
    wanted: bool,
) -> Result<(), Memory>
    ensures { OnOk result
        (out.new.items
        ≡ out.old.items
        ++ map (moved places.now)
        (filter (λ node. passes wanted (is_near game.now depth node)) nodes.now)) }
{
    for node in nodes {
        let near = is_near(game, depth, node);
        push_node(alloc, out, node, places, passes(wanted, near))?;
    }
    Ok(())
}

/// The nodes with the near ones last.
fn arrange_nodes(
    alloc: Global,
    game: &Game,
    depth: u32,
    nodes: &[Node],
) -> Result<Vec<Node>, Memory>
    requires { length nodes.now ≤ MAX_CLAIM_NODES }
    ensures { IfOk result (λ out. out.items ≡ arranged_nodes (is_near game.now depth) nodes.now) }
{
    let places = places_of(alloc, game, depth, nodes)?;
    let mut out = Vec::new(alloc);
    push_nodes(
        alloc,
        &mut out,
        game,
        depth,
        nodes,
        places.as_slice(),
        false,
    )?;
    push_nodes(alloc, &mut out, game, depth, nodes, places.as_slice(), true)?;
    Ok(out)
}

/// The claim with its near nodes last.
fn arrange_claim(alloc: Global, game: &Game, depth: u32, claim: &Claim) -> Result<Claim, Memory>
    requires { length claim.now.nodes ≤ MAX_CLAIM_NODES }
    ensures { IfOk result (λ out. out ≡ arranged_claim game.now depth claim.now) }
{
    let nodes = arrange_nodes(alloc, game, depth, claim.nodes.as_slice())?;
    Ok(Claim {
        turn: claim.turn,
        side: claim.side,
        goal: claim.goal,
        nodes: Nodes::from_vec(nodes),
    })
}

/// The claims with their near nodes last.
fn arrange_claims(
    alloc: Global,
    game: &Game,
    depth: u32,
    claims: &[Claim],
) -> Result<Vec<Claim>, Memory>
    requires { All (λ claim. length claim.nodes ≤ MAX_CLAIM_NODES) claims.now }
    ensures { IfOk result (λ out. out.items ≡ map (arranged_claim game.now depth) claims.now) }
{
    let mut out = Vec::new(alloc);
    for claim in claims {
        let arranged = arrange_claim(alloc, game, depth, claim)?;
        out.push(arranged)?;
    }
    Ok(out)
}

/// Returns the certificate with the near nodes of each claim after the others: both keep their
/// order, and each node names its children by their new numbers. A node is near if its position has
/// at most `depth` more points of the two sides than the game's start.
///
/// # Errors
///
/// `Memory` if no memory is found.
pub fn arrange(alloc: Global, game: &Game, depth: u32, cert: &Cert) -> Result<Cert, Memory>
    requires { All (λ claim. length claim.nodes ≤ MAX_CLAIM_NODES) cert.now.claims }
    ensures { IfOk result (λ out. out ≡ arranged game.now depth cert.now) }
{
    let claims = arrange_claims(alloc, game, depth, cert.claims.as_slice())?;
    Ok(Cert {
        version: cert.version,
        claims: Claims::from_vec(claims),
    })
}
