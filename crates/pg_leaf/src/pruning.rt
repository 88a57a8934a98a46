//! The nodes that are kept, with new numbers of their children.
ghost use Rattle.std.specs.Prelude.{◌≡◌, ◌<◌, ◌≤◌, ◌^◌, ℕ, Bool, List, Some, IfOk, OnOk, length};
ghost use Rattle.std.specs.Prelude.{slice_get};
ghost use Rattle.pg_leaf.specs.Prelude.{All, NamesEarlier, Node, MAX_CLAIM_NODES};
ghost use Rattle.pg_leaf.specs.Pruned.{AreMarked, AreRenumbered, IsKept, IsPruned, Renumbers};

use crate::kept::KeptNode;
use crate::marks::{mark_needed, unmarked};
use pg_base::{Memory, Pairs, Points};
use pg_cert::{Body, EdgeSet, Node, Replies, Reply};
use std::alloc::Global;

/// The replies with new numbers.
fn renumber_replies(alloc: Global, replies: &[Reply], numbers: &[u32]) -> Result<Vec<Reply>, Memory>
    requires { All (λ r. r.child < length numbers.now) replies.now }
    ensures { IfOk result (λ new. AreRenumbered numbers.now replies.now new.items) }
{
    let mut new = Vec::new(alloc);
    for r in replies {
        new.push(Reply {
            point: r.point,
            child: numbers[r.child as usize],
        })?;
    }
    Ok(new)
}

/// A copy of the body with new numbers.
fn renumbered(alloc: Global, body: &Body, numbers: &[u32]) -> Result<Body, Memory>
    requires { NamesEarlier (length numbers.now) body.now }
    ensures { IfOk result (Renumbers numbers.now body.now) }
{
    Ok(match body {
        Body::Move { point, child } => Body::Move {
            point: *point,
            child: numbers[*child as usize],
        },
        Body::All(replies) => Body::All(Replies::from_vec(renumber_replies(
            alloc,
            replies.as_slice(),
            numbers,
        )?)),
        Body::Weaker { child } => Body::Weaker {
            child: numbers[*child as usize],
        },
        Body::Over => Body::Over,
        Body::Pairs(pairs) => Body::Pairs(Pairs::from_vec(pairs.as_slice().to_vec(alloc)?)),
        Body::Potential => Body::Potential,
        Body::Trees {
            with_e,
            first,
            second,
        } => Body::Trees {
            with_e: *with_e,
            first: EdgeSet::new(alloc, *first.as_set())?,
            second: EdgeSet::new(alloc, *second.as_set())?,
        },
        Body::Cuts {
            with_e,
            first,
            second,
        } => Body::Cuts {
            with_e: *with_e,
            first: EdgeSet::new(alloc, *first.as_set())?,
            second: EdgeSet::new(alloc, *second.as_set())?,
        },
        Body::Threat(points) => Body::Threat(Points::from_vec(points.as_slice().to_vec(alloc)?)),
    })
}

/// Keeps the node's new number, and the node where it is marked.
fn keep_node(
    alloc: Global,
    node: &KeptNode,
    marked: bool,
    numbers: &mut Vec<u32>,
    out: &mut Vec<Node>,
) -> Result<(), Memory>
    requires few { length out.old.items < 2 ^ 32 }
    requires earlier { NamesEarlier (length numbers.old.items) node.now.body }
    ensures { OnOk result
        (IsKept marked node.now numbers.old.items numbers.new.items out.old.items out.new.items) }
{
    numbers.push(out.len() as u32)?;
    if !marked {
        return Ok(());
    }
    let body = renumbered(alloc, node.body(), numbers.as_slice())?;
    out.push(node.with_body(body))?;
    Ok(())
}

/// The marked nodes in their order, with new numbers.
fn marked_nodes(alloc: Global, nodes: &[KeptNode], marks: &[bool]) -> Result<Vec<Node>, Memory>
    requires few { length nodes.now ≤ MAX_CLAIM_NODES }
    requires earlier { (k : ℕ) → (n : Node) → slice_get nodes.now k ≡ Some n
        → NamesEarlier k n.body }
    requires marks { AreMarked nodes.now 0 marks.now }
    ensures { IfOk result (λ out. (numbers : List ℕ)
        × IsPruned nodes.now marks.now (length nodes.now) numbers out.items) }
{
    let mut numbers = Vec::new(alloc);
    let mut out = Vec::new(alloc);
    for k in 0..nodes.len() {
        keep_node(alloc, &nodes[k], marks[k], &mut numbers, &mut out)?;
    }
    Ok(out)
}

/// The nodes that the last one reaches, in their order, with new numbers of their children.
///
/// # Errors
///
/// `Memory` where no memory is found.
pub fn prune(alloc: Global, nodes: &[KeptNode]) -> Result<Vec<Node>, Memory>
    requires some { 1 ≤ length nodes.now }
    requires few { length nodes.now ≤ MAX_CLAIM_NODES }
    requires earlier { (k : ℕ) → (n : Node) → slice_get nodes.now k ≡ Some n
        → NamesEarlier k n.body }
    ensures { IfOk result
        (λ out. (marks : List Bool) × (numbers : List ℕ) × AreMarked nodes.now 0 marks
        × IsPruned nodes.now marks (length nodes.now) numbers out.items) }
{
    let mut marks = unmarked(alloc, nodes.len())?;
    mark_needed(nodes, marks.as_mut_slice());
    marked_nodes(alloc, nodes, marks.as_slice())
}
