//! A table of patterns of one side.
ghost use Rattle.std.specs.Prelude.{◌≤◌, IfOk, OnOk, vec_len};

use crate::small_set::SmallSet;
use pg_base::Memory;
use std::alloc::Global;

/// The zone of a pattern, and the pattern's number.
#[derive(Clone, Copy, Debug)]
struct Item {
    zone: SmallSet,
    pattern: u32,
}

/// A further point that is held, and the place of the node that knows what is held with it.
#[derive(Clone, Copy, Debug)]
struct Branch {
    point: u8,
    place: usize,
}

/// The patterns in which certain points are held, and where those are in which more are.
#[derive(Debug, Drop)]
struct Fork {
    items: Vec<Item>,
    branches: Vec<Branch>,
}

/// The patterns of one side, by the points that are held in ascending order.
#[derive(Debug, Drop)]
pub(crate) struct Trie {
    forks: Vec<Fork>,
}

/// Drops the items whose zones the zone is within.
fn drop_greater(items: &mut Vec<Item>, zone: SmallSet) {
    for i in (0..items.len()).rev() {
        if i < items.len() && zone.is_subset(items[i].zone) {
            let _greater = items.swap_remove(i);
        }
    }
}

impl Fork {
    /// Returns the fork without patterns.
    fn new(alloc: Global) -> Fork {
        Fork {
            items: Vec::new(alloc),
            branches: Vec::new(alloc),
        }
    }

    /// Returns the place of the branch with the point, if there is one.
    fn place_of(&self, point: u8) -> Option<usize> {
        for branch in &self.branches {
            if branch.point == point {
                return Some(branch.place);
            }
        }
        None
    }

    /// Adds to `found` the patterns in whose zones the other side has no point, until there are
    /// `most`.
    fn collect(&self, theirs: SmallSet, most: usize, found: &mut Vec<u32>) -> Result<(), Memory>
        ensures { OnOk result (vec_len found.old ≤ most → vec_len found.new ≤ most) }
    {
        for item in &self.items {
            if found.len() >= most {
                return Ok(());
            }
            if item.zone.shares_none(theirs) {
                found.push(item.pattern)?;
            }
        }
        Ok(())
    }

    /// Adds to `places` those of the branches whose points are in `mine`.
    fn go_on(&self, mine: SmallSet, places: &mut Vec<usize>) -> Result<(), Memory> {
        for branch in &self.branches {
            if mine.has(branch.point) {
                places.push(branch.place)?;
            }
        }
        Ok(())
    }
}

impl Trie {
    /// Returns the table without patterns.
    ///
    /// # Errors
    ///
    /// `Memory` if an allocation fails.
    pub(crate) fn new(alloc: Global) -> Result<Trie, Memory> {
        let mut forks = Vec::new(alloc);
        forks.push(Fork::new(alloc))?;
        Ok(Trie { forks })
    }

    /// Returns the place of the fork at which the point is held too, and makes it if there is none.
    fn branch(&mut self, alloc: Global, place: usize, point: u8) -> Result<usize, Memory> {
        let next = self.forks.len();
        let Some(fork) = self.forks.get_mut(place) else {
            return Ok(place);
        };
        if let Some(found) = fork.place_of(point) {
            return Ok(found);
        }
        fork.branches.push(Branch { point, place: next })?;
        self.forks.push(Fork::new(alloc))?;
        Ok(next)
    }

    /// Adds a pattern, and drops those with the same held points whose zones contain its zone.
    pub(crate) fn put(
        &mut self,
        alloc: Global,
        held: SmallSet,
        zone: SmallSet,
        pattern: u32,
    ) -> Result<(), Memory> {
        let mut place = 0;
        for point in held.members() {
            place = self.branch(alloc, place, point)?;
        }
        if let Some(fork) = self.forks.get_mut(place) {
            drop_greater(&mut fork.items, zone);
            fork.items.push(Item { zone, pattern })?;
        }
        Ok(())
    }

    /// Returns at most `most` patterns whose held points are in `mine` and whose zones have no
    /// point of `theirs`.
    pub(crate) fn find(
        &self,
        alloc: Global,
        mine: SmallSet,
        theirs: SmallSet,
        most: usize,
    ) -> Result<Vec<u32>, Memory>
        ensures { IfOk result (λ found. vec_len found ≤ most) }
    {
        let mut found = Vec::new(alloc);
        let mut places = Vec::new(alloc);
        places.push(0usize)?;
        for _visit in 0..self.forks.len() {
            let Some(place) = places.pop() else {
                break;
            };
            if let Some(fork) = self.forks.get(place) {
                fork.collect(theirs, most, &mut found)?;
                if found.len() >= most {
                    break;
                }
                fork.go_on(mine, &mut places)?;
            }
        }
        Ok(found)
    }
}
