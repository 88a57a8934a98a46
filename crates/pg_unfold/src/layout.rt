//! Which copies of a claim's nodes are met, and where they settle.
ghost use Rattle.std.specs.Prelude.{◌≡◌, ◌+◌, ◌*◌, ◌<◌, ◌≤◌, List, IfOk, length};
ghost use Rattle.pg_unfold.specs.Prelude.{IsImageClaim, MAX_CLAIM_NODES, Node};
ghost use Rattle.pg_unfold.specs.Flaws.{IsSoundClaim};
ghost use Rattle.pg_unfold.specs.Layouts.{AreCopiedBelow, IsLaidOut, LaysOutWithin, copy_count};
ghost use Rattle.pg_unfold.specs.Layouts.{origins_in, size_in, with_next};
ghost use Rattle.pg_unfold.specs.Marks.{AreEarlier};

use crate::board_map::board_of;
use crate::copying::{copied_node, origins_of};
use crate::met::met_copies;
use crate::places::{Places, places_of};
use crate::room::is_few;
use crate::unfolded::Origins;
use pg_base::Memory;
use pg_cert::Node;
use pg_game::Game;
use pg_image::ImageClaim;
use std::alloc::Global;

/// Which copies of a claim's nodes are met, and where they settle. Of its unfolding no node is made
/// yet: each is made when it is asked for.
#[derive(Debug, Drop)]
pub struct Layout {
    /// For each copy whether it is met.
    pub(crate) marks: Vec<bool>,
    /// The places of the copies, and how many nodes the unfolded claim has.
    pub(crate) settled: Places,
}

/// The layout of the claim, or None exactly where there is no room for its nodes.
pub(crate) fn lay_out_claim(
    alloc: Global,
    claim: &ImageClaim,
    room: u32,
) -> Result<Option<Layout>, Memory>
    requires limits { IsImageClaim claim.now }
    requires earlier { AreEarlier claim.now.nodes }
    ensures { IfOk result (LaysOutWithin claim.now room) }
{
    let nodes = claim.nodes.as_slice();
    let table = met_copies(alloc, nodes)?;
    let marks = table.as_slice();
    let settled = places_of(alloc, nodes, marks)?;
    let fits = is_few(settled.count, room);
    if !fits {
        return Ok(None);
    }
    Ok(Some(Layout {
        marks: table,
        settled,
    }))
}

impl Layout {
    /// How many nodes the unfolded claim has: 1 to 100,000.
    pub fn size(&self) -> u32
        ensures { result ≡ size_in self.now }
    {
        self.settled.count
    }

    /// How many copies the claim's nodes have, eight for each node.
    pub fn copies(&self) -> usize
        ensures { result ≡ copy_count self.now }
    {
        self.marks.len()
    }

    /// The next node of the unfolded claim, where the copy with this number gives one: it comes
    /// after those that the copies with lower numbers give.
    pub fn copied(
        &self,
        alloc: Global,
        g: &Game,
        claim: &ImageClaim,
        key: usize,
    ) -> Result<Option<Node>, Memory>
        requires laid { IsLaidOut claim.now self.now }
        requires sound { IsSoundClaim g.now claim.now }
        requires place { key < copy_count self.now }
        ensures { IfOk result
            (λ next. (done : List Node) → AreCopiedBelow g.now claim.now self.now key done
            → AreCopiedBelow g.now claim.now self.now (key + 1) (with_next done next)) }
    {
        let nodes = claim.nodes.as_slice();
        let marks = self.marks.as_slice();
        let places = self.settled.places.as_slice();
        let board = board_of(g);
        copied_node(alloc, board, nodes, marks, places, key)
    }

    /// For each node of the unfolded claim the number of the node from which it comes.
    pub fn origins(&self, alloc: Global, claim: &ImageClaim) -> Result<Origins, Memory>
        requires few { length claim.now.nodes ≤ MAX_CLAIM_NODES }
        requires whole { copy_count self.now ≡ 8 * length claim.now.nodes }
        ensures { IfOk result (λ origins. origins ≡ origins_in claim.now self.now) }
    {
        let nodes = claim.nodes.as_slice();
        let marks = self.marks.as_slice();
        let origins = origins_of(alloc, nodes, marks)?;
        Ok(Origins::from_vec(origins))
    }
}
