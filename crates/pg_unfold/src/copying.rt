//! The nodes of an unfolded claim.
ghost use Rattle.std.specs.Prelude.{◌≡◌, ◌<◌, ◌≤◌, ◌*◌, ◌/◌, IfOk, IfSome, IfNone, length, map};
ghost use Rattle.std.specs.Prelude.{false, slice_get, Some};
ghost use Rattle.pg_unfold.specs.Prelude.{All, MAX_CLAIM_NODES, IsImageNode, Plain, IsMarked};
ghost use Rattle.pg_unfold.specs.Marks.{AreBoardMaps, AreEarlier, AreMet, ArePlaces, copies_of};
ghost use Rattle.pg_unfold.specs.Marks.{is_kept};
ghost use Rattle.pg_unfold.specs.Flaws.{IsSoundClaim};
ghost use Rattle.pg_unfold.specs.Layouts.{AreCopiedBelow, IsLaidOut, IsNextCopy, copy_count};

use crate::bodies::image_node;
use crate::layout::Layout;
use crate::met::{COPIES, map_at};
use pg_base::{Grid, Memory};
use pg_cert::Node;
use pg_game::Game;
use pg_image::{ImageClaim, ImageNode};
use std::alloc::Global;

/// The plain node of the copy with that place, where it is one of a plain node and met.
pub(crate) fn kept_node<'a>(nodes: &'a [ImageNode], marks: &[bool], key: usize) -> Option<&'a Node>
    requires whole { length marks.now ≡ 8 * length nodes.now }
    requires place { key < length marks.now }
    ensures some { IfSome result
        (λ node. IsMarked marks.now key × (slice_get nodes.now (key / 8) ≡ Some (Plain node.now))) }
    ensures none { IfNone result (is_kept nodes.now marks.now key ≡ false) }
{
    if !marks[key] {
        return None;
    }
    match &nodes[key / COPIES] {
        ImageNode::Plain(node) => Some(node),
        ImageNode::Image { .. } => None,
    }
}

/// The node of the unfolded claim that the copy with that place gives, where it is one of a plain
/// node and met.
pub(crate) fn copied_node(
    alloc: Global,
    board: Option<Grid>,
    nodes: &[ImageNode],
    marks: &[bool],
    places: &[u32],
    key: usize,
) -> Result<Option<Node>, Memory>
    requires limits { All IsImageNode nodes.now }
    requires earlier { AreEarlier nodes.now }
    requires met { AreMet nodes.now marks.now }
    requires places { ArePlaces nodes.now marks.now places.now }
    requires maps { AreBoardMaps board marks.now }
    requires place { key < length marks.now }
    ensures { IfOk result (IsNextCopy board nodes.now marks.now key) }
{
    let Some(node) = kept_node(nodes, marks, key) else {
        return Ok(None);
    };
    let image = image_node(alloc, board, map_at(key), key / COPIES, places, node)?;
    Ok(Some(image))
}

/// The nodes of the unfolded claim, one for each copy of a plain node that is met.
pub(crate) fn copied_nodes(
    alloc: Global,
    g: &Game,
    claim: &ImageClaim,
    layout: &Layout,
) -> Result<Vec<Node>, Memory>
    requires laid { IsLaidOut claim.now layout.now }
    requires sound { IsSoundClaim g.now claim.now }
    ensures { IfOk result (λ copied. AreCopiedBelow g.now claim.now layout.now
        (copy_count layout.now) copied.items) }
{
    let mut copied = Vec::new(alloc);
    for key in 0..layout.copies() {
        let next = layout.copied(alloc, g, claim, key)?;
        if let Some(node) = next {
            copied.push(node)?;
        }
    }
    Ok(copied)
}

/// For each of these nodes the number of the node from which it came.
pub(crate) fn origins_of(
    alloc: Global,
    nodes: &[ImageNode],
    marks: &[bool],
) -> Result<Vec<u32>, Memory>
    requires few { length nodes.now ≤ MAX_CLAIM_NODES }
    requires whole { length marks.now ≡ 8 * length nodes.now }
    ensures { IfOk result
        (λ origins. origins.items ≡ map (λ c. c.node) (copies_of nodes.now marks.now)) }
{
    let mut origins = Vec::new(alloc);
    for key in 0..marks.len() {
        if kept_node(nodes, marks, key).is_some() {
            origins.push((key / COPIES) as u32)?;
        }
    }
    Ok(origins)
}
