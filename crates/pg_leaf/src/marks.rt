//! Marks on the nodes that the last one reaches.
ghost use Rattle.std.specs.Prelude.{◌≡◌, ◌<◌, ◌≤◌, ℕ, true, false, Some, IfOk, length, slice_get};
ghost use Rattle.pg_leaf.specs.Prelude.{All, NamesEarlier, Node, IsMarked, MAX_CLAIM_NODES};
ghost use Rattle.std.proofs.Math.ListN.{replicate};
ghost use Rattle.pg_leaf.specs.Pruned.{AreMarked, AreNamed, MarksMore, Names};

use crate::kept::KeptNode;
use pg_base::Memory;
use pg_cert::{Body, Reply};
use std::alloc::Global;

/// Marks the number.
fn mark(marks: &mut [bool], i: u32)
    requires { i < length marks.old }
    ensures { MarksMore (λ j. i ≡ j) marks.old marks.new }
{
    marks[i as usize] = true;
}

/// Marks the children of replies.
fn mark_replies(replies: &[Reply], marks: &mut [bool])
    requires { All (λ r. r.child < length marks.old) replies.now }
    ensures { MarksMore (AreNamed replies.now) marks.old marks.new }
{
    for r in replies {
        mark(marks, r.child);
    }
}

/// Marks the children that the body names.
fn mark_children(body: &Body, marks: &mut [bool])
    requires { NamesEarlier (length marks.old) body.now }
    ensures { MarksMore (Names body.now) marks.old marks.new }
{
    match body {
        Body::Move {
            point: _point,
            child,
        } => mark(marks, *child),
        Body::All(replies) => mark_replies(replies.as_slice(), marks),
        Body::Weaker { child } => mark(marks, *child),
        Body::Over => {}
        Body::Pairs(_pairs) => {}
        Body::Potential => {}
        Body::Trees { .. } => {}
        Body::Cuts { .. } => {}
        Body::Threat(_points) => {}
    }
}

/// Marks the children of the node of the number, where it is marked.
fn mark_from(node: &KeptNode, k: usize, marks: &mut [bool])
    requires within { k < length marks.old }
    requires earlier { NamesEarlier k node.now.body }
    ensures marked { IsMarked marks.old k → MarksMore (Names node.now.body) marks.old marks.new }
    ensures left { slice_get marks.old k ≡ Some false → marks.new ≡ marks.old }
{
    if marks[k] {
        mark_children(node.body(), marks);
    }
}

/// Marks what the marked nodes name, from the last on.
fn mark_all(nodes: &[KeptNode], marks: &mut [bool])
    requires earlier { (k : ℕ) → (n : Node) → slice_get nodes.now k ≡ Some n
        → NamesEarlier k n.body }
    requires marks { AreMarked nodes.now (length nodes.now) marks.old }
    ensures { AreMarked nodes.now 0 marks.new }
{
    for i in 0..nodes.len() {
        let k = nodes.len() - 1 - i;
        mark_from(&nodes[k], k, marks);
    }
}

/// Marks the last number, and what the marked nodes name.
pub(crate) fn mark_needed(nodes: &[KeptNode], marks: &mut [bool])
    requires some { 1 ≤ length nodes.now }
    requires few { length nodes.now ≤ MAX_CLAIM_NODES }
    requires earlier { (k : ℕ) → (n : Node) → slice_get nodes.now k ≡ Some n
        → NamesEarlier k n.body }
    requires marks { marks.old ≡ replicate (length nodes.now) false }
    ensures { AreMarked nodes.now 0 marks.new }
{
    mark(marks, (nodes.len() - 1) as u32);
    mark_all(nodes, marks);
}

/// So many marks that aren't set.
pub(crate) fn unmarked(alloc: Global, count: usize) -> Result<Vec<bool>, Memory>
    ensures { IfOk result (λ marks. marks.items ≡ replicate count false) }
{
    let marks = Vec::from_elem(alloc, false, count)?;
    Ok(marks)
}
