//! At which places of the unfolded claim the copies of nodes settle.
ghost use Rattle.std.specs.Prelude.{◌≡◌, ◌<◌, ◌≤◌, ◌*◌, IfOk, length};
ghost use Rattle.pg_cert.specs.declared.limits.TheConstants.{MAX_CLAIM_NODES};
ghost use Rattle.pg_unfold.specs.Marks.{AreEarlier, AreMet, ArePlaces, copies_of};

use crate::met::{COPIES, map_at};
use pg_base::Memory;
use pg_image::ImageNode;
use std::alloc::Global;

/// The places of all copies in the unfolded claim, and how many nodes that has.
#[derive(Debug, Drop)]
pub struct Places {
    /// For each copy that is met the place at which it settles; for other copies any number.
    pub(crate) places: Vec<u32>,
    /// How many nodes the unfolded claim has.
    pub(crate) count: u32,
}

/// The places of a claim's copies.
pub(crate) fn places_of(
    alloc: Global,
    nodes: &[ImageNode],
    marks: &[bool],
) -> Result<Places, Memory>
    requires few { length nodes.now ≤ MAX_CLAIM_NODES }
    requires earlier { AreEarlier nodes.now }
    requires met { AreMet nodes.now marks.now }
    ensures places { IfOk result (λ p. ArePlaces nodes.now marks.now p.places.items) }
    ensures count { IfOk result (λ p. p.count ≡ length (copies_of nodes.now marks.now)) }
{
    let mut places = Vec::with_capacity(alloc, marks.len())?;
    let mut count = 0;
    for key in 0..marks.len() {
        match &nodes[key / COPIES] {
            ImageNode::Plain(_) => {
                places.push(count)?;
                count += u32::from(marks[key]);
            }
            ImageNode::Image { map, child, .. } => {
                let both = map.followed_by(map_at(key));
                let place = places[COPIES * *child as usize + both.number() as usize];
                places.push(place)?;
            }
        }
    }
    Ok(Places { places, count })
}
