//! How many nodes rest on each pattern.
ghost use Rattle.std.specs.Prelude.{◌≡◌};

use pg_base::Memory;
use pg_patterns::{Arena, Image, Reason, Spot};
use pg_zones::Found;
use std::alloc::Global;
use std::collections::HashMap;

/// The most patterns that are looked at.
const MOST_COUNTED: u32 = 400_000;

/// The numbers of nodes that rest on each pattern, as far as they were counted.
#[derive(Debug, Drop)]
pub(crate) struct Uses {
    counts: HashMap<Image, u32>,
}

/// Returns the image under `map` of an image that a pattern rests on.
pub(crate) fn under(arena: &Arena, map: u8, next: Image) -> Image {
    Image {
        pattern: next.pattern,
        map: arena.maps.followed_by(next.map, map),
    }
}

/// Returns the position in which the claimer has the held points and the other side every point
/// outside the zone; None if there is no pattern of that number.
pub(crate) fn spot_of(found: &Found, image: Image) -> Option<Spot> {
    let pattern = found.known.pattern(image.pattern)?;
    let (held, zone) = found.known.parts(&found.arena, image)?;
    Some(
        found
            .arena
            .conceded(pattern.claimer, held, zone, pattern.turn()),
    )
}

/// Returns the pattern that answers the move to the point: one whose own position is the one after
/// the move, else the first whose zone lacks the point.
pub(crate) fn answer_to(
    found: &Found,
    map: u8,
    answers: &[Image],
    point: u8,
    after: &Spot,
) -> Option<Image> {
    let mut first = None;
    for next in answers {
        let image = under(&found.arena, map, *next);
        if let Some((_held, zone)) = found.known.parts(&found.arena, image) {
            if !zone.has(point) {
                if spot_of(found, image) == Some(*after) {
                    return Some(image);
                }
                first = first.or(Some(image));
            }
        }
    }
    first
}

impl Uses {
    /// Counts one more node that rests on the pattern. Returns whether it is the first.
    fn count(&mut self, image: Image) -> Result<bool, Memory> {
        let count = match self.counts.get(&image) {
            Some(count) => *count,
            None => 0,
        };
        self.counts.insert(image, count.saturating_add(1))?;
        Ok(count == 0)
    }

    /// Returns how many nodes rest on the pattern.
    pub(crate) fn of(&self, image: Image) -> u32 {
        match self.counts.get(&image) {
            Some(count) => *count,
            None => 0,
        }
    }

    /// Counts the patterns that answer all moves, and adds to `rest` those that were not counted
    /// yet.
    fn count_answers(
        &mut self,
        found: &Found,
        image: Image,
        answers: &[Image],
        rest: &mut Vec<Image>,
    ) -> Result<(), Memory> {
        let Some(spot) = spot_of(found, image) else {
            return Ok(());
        };
        for v in found.arena.free(&spot).members() {
            if let Some(next) = answer_to(found, image.map, answers, v, &spot.after(v)) {
                if self.count(next)? {
                    rest.push(next)?;
                }
            }
        }
        Ok(())
    }

    /// Counts the patterns that one rests on, and adds to `rest` those that were not counted yet.
    fn count_next(
        &mut self,
        found: &Found,
        image: Image,
        rest: &mut Vec<Image>,
    ) -> Result<(), Memory> {
        let Some(pattern) = found.known.pattern(image.pattern) else {
            return Ok(());
        };
        match &pattern.reason {
            Reason::Move { next, .. } => {
                let next = under(&found.arena, image.map, *next);
                if self.count(next)? {
                    rest.push(next)?;
                }
                Ok(())
            }
            Reason::All(answers) => self.count_answers(found, image, answers.as_slice(), rest),
            _ => Ok(()),
        }
    }

    /// Counts the patterns on which the root rests.
    ///
    /// # Errors
    ///
    /// `Memory` if an allocation fails.
    pub(crate) fn below(alloc: Global, found: &Found, root: Image) -> Result<Uses, Memory> {
        let mut uses = Uses {
            counts: HashMap::new(alloc),
        };
        let mut rest = Vec::new(alloc);
        rest.push(root)?;
        for _pattern in 0..MOST_COUNTED {
            let Some(image) = rest.pop() else {
                break;
            };
            uses.count_next(found, image, &mut rest)?;
        }
        Ok(uses)
    }
}
