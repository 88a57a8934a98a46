//! A position, as the signatures of the positions after its moves are made from it.

use crate::signature::{Signature, Signatures};
use pg_base::Side;
use pg_game::Position;
use pg_patterns::{SmallMembers, SmallSet};

/// The most maps of a board.
const MAPS: u8 = 8;

/// A position with its images under the maps of the board that fit the game.
///
/// A move adds few points to a signature: the one that is taken, and those that die by it. So the
/// images of the position after the move are made from these.
#[derive(Clone, Copy, Debug)]
pub(crate) struct Outlook<'a> {
    signatures: &'a Signatures,
    x: SmallSet,
    y: SmallSet,
    free: SmallSet,
    dead: SmallSet,
    /// The image under each map, and the signature itself where a map doesn't fit the game.
    images: [Signature; MAPS as usize],
}

/// The points that a move adds to a signature.
#[derive(Clone, Copy, Debug)]
struct Added {
    /// The side that moves.
    side: Side,
    /// The point that it takes.
    point: u8,
    /// The points that die.
    dead: SmallSet,
}

/// The image of a signature after a move, if `image` is that before it.
fn grown(signatures: &Signatures, map: u8, image: Signature, added: Added) -> Signature {
    let dead = signatures.arena.maps.image_of_set(map, added.dead);
    let taken = dead.with(signatures.arena.maps.image(map, added.point));
    let free = image.free.saturating_sub(1);
    match added.side {
        Side::X => Signature {
            x: image.x.union(taken),
            y: image.y.union(dead),
            free,
        },
        Side::Y => Signature {
            x: image.x.union(dead),
            y: image.y.union(taken),
            free,
        },
    }
}

/// The images of a signature under the maps that fit the game.
fn images_of(signatures: &Signatures, own: Signature) -> [Signature; MAPS as usize] {
    let mut images = [own; MAPS as usize];
    for map in 1..MAPS {
        if signatures.has_map(map) {
            images[usize::from(map)] = Signature {
                x: signatures.arena.maps.image_of_set(map, own.x),
                y: signatures.arena.maps.image_of_set(map, own.y),
                free: own.free,
            };
        }
    }
    images
}

impl<'a> Outlook<'a> {
    /// The position with its images.
    pub(crate) fn new(signatures: &'a Signatures, p: &Position) -> Outlook<'a> {
        let (x, y) = (SmallSet::from_points(&p.x), SmallSet::from_points(&p.y));
        let dead = signatures.dead(x, y);
        let free = signatures.arena.points.without(x).without(y);
        let own = Signature {
            x: x.union(dead),
            y: y.union(dead),
            free: free.len(),
        };
        Outlook {
            signatures,
            x,
            y,
            free,
            dead,
            images: images_of(signatures, own),
        }
    }

    /// The free points, ascending.
    pub(crate) fn free(&self) -> SmallMembers {
        self.free.members()
    }

    /// The signature of the position: the first of the images.
    pub(crate) fn signature(&self) -> Signature {
        let images = self.images;
        let mut first = images[0];
        for image in &images {
            if image.is_before(&first) {
                first = *image;
            }
        }
        first
    }

    /// The points that are dead after the move of the side to the point, and weren't before.
    fn dying(&self, side: Side, v: u8) -> SmallSet {
        if self.dead.has(v) || self.signatures.is_harmless(side) {
            return SmallSet::empty();
        }
        let dead = match side {
            Side::X => self.signatures.dead(self.x.with(v), self.y),
            Side::Y => self.signatures.dead(self.x, self.y.with(v)),
        };
        dead.without(self.dead)
    }

    /// The position after the move of the side to the free point.
    pub(crate) fn after(&self, side: Side, v: u8) -> Outlook<'a> {
        let added = Added {
            side,
            point: v,
            dead: self.dying(side, v),
        };
        let mut images = [grown(self.signatures, 0, self.images[0], added); MAPS as usize];
        for map in 1..MAPS {
            if self.signatures.has_map(map) {
                let place = usize::from(map);
                images[place] = grown(self.signatures, map, self.images[place], added);
            }
        }
        let (x, y) = match side {
            Side::X => (self.x.with(v), self.y),
            Side::Y => (self.x, self.y.with(v)),
        };
        Outlook {
            signatures: self.signatures,
            x,
            y,
            free: self.free.less(v),
            dead: self.dead.union(added.dead),
            images,
        }
    }

    /// The signature of the position after the move of the side to the free point.
    pub(crate) fn signature_after(&self, side: Side, v: u8) -> Signature {
        let added = Added {
            side,
            point: v,
            dead: self.dying(side, v),
        };
        let mut first = grown(self.signatures, 0, self.images[0], added);
        for map in 1..MAPS {
            if self.signatures.has_map(map) {
                let image = grown(self.signatures, map, self.images[usize::from(map)], added);
                if image.is_before(&first) {
                    first = image;
                }
            }
        }
        first
    }
}
