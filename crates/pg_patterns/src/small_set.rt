//! Sets of points below 256.
ghost use Rattle.std.specs.Prelude.{◌≤◌};
ghost use Rattle.std.specs.Iterator.{at_most};

use pg_base::PointSet;

/// A set of points below 256, a bit for each.
#[derive(Clone, Copy, Debug, PartialEq, Eq, Hash)]
pub struct SmallSet {
    words: [u64; 4],
}

/// The points of a set, ascending.
#[derive(Clone, Copy, Debug)]
pub struct SmallMembers {
    left: SmallSet,
    count: u32,
}

impl SmallSet {
    /// The set without points.
    pub fn empty() -> SmallSet {
        SmallSet { words: [0; 4] }
    }

    /// The points of the set below 256.
    pub fn from_points(points: &PointSet) -> SmallSet {
        let words = points.words();
        SmallSet {
            words: [words[0], words[1], words[2], words[3]],
        }
    }

    /// The same points as a set of up to 1,024.
    pub fn to_points(self) -> PointSet {
        let mut points = PointSet::empty();
        for v in self.members() {
            points.put(u16::from(v));
        }
        points
    }

    /// Tests whether the point is in the set.
    pub fn has(self, v: u8) -> bool {
        self.words[usize::from(v / 64)] >> (v % 64) & 1 == 1
    }

    /// The set with the point.
    pub fn with(self, v: u8) -> SmallSet {
        let mut words = self.words;
        words[usize::from(v / 64)] |= 1 << (v % 64);
        SmallSet { words }
    }

    /// The set without the point.
    pub fn less(self, v: u8) -> SmallSet {
        let mut words = self.words;
        words[usize::from(v / 64)] &= !(1 << (v % 64));
        SmallSet { words }
    }

    /// The points that are in one or both of the sets.
    pub fn union(self, other: SmallSet) -> SmallSet {
        let (a, b) = (self.words, other.words);
        SmallSet {
            words: [a[0] | b[0], a[1] | b[1], a[2] | b[2], a[3] | b[3]],
        }
    }

    /// The points that are in both sets.
    pub fn common(self, other: SmallSet) -> SmallSet {
        let (a, b) = (self.words, other.words);
        SmallSet {
            words: [a[0] & b[0], a[1] & b[1], a[2] & b[2], a[3] & b[3]],
        }
    }

    /// The points of the set that aren't in the other set.
    pub fn without(self, other: SmallSet) -> SmallSet {
        let (a, b) = (self.words, other.words);
        SmallSet {
            words: [a[0] & !b[0], a[1] & !b[1], a[2] & !b[2], a[3] & !b[3]],
        }
    }

    /// Tests whether the set has no point.
    pub fn is_empty(self) -> bool {
        let a = self.words;
        a[0] | a[1] | a[2] | a[3] == 0
    }

    /// Tests whether each point of the set is in the other set.
    pub fn is_subset(self, other: SmallSet) -> bool {
        self.without(other).is_empty()
    }

    /// Tests whether no point is in both sets.
    pub fn shares_none(self, other: SmallSet) -> bool {
        self.common(other).is_empty()
    }

    /// Returns how many points the set has.
    pub fn len(self) -> u32
        ensures { result ≤ 256 }
    {
        let a = self.words;
        a[0].count_ones() + a[1].count_ones() + a[2].count_ones() + a[3].count_ones()
    }

    /// The least point of the set, and None where it has none.
    pub fn first(self) -> Option<u8> {
        let a = self.words;
        if a[0] != 0 {
            return Some(a[0].trailing_zeros() as u8);
        }
        if a[1] != 0 {
            return Some(64 + a[1].trailing_zeros() as u8);
        }
        if a[2] != 0 {
            return Some(128 + a[2].trailing_zeros() as u8);
        }
        if a[3] != 0 {
            return Some(192 + a[3].trailing_zeros() as u8);
        }
        None
    }

    /// The points of the set, ascending.
    pub fn members(self) -> SmallMembers {
        SmallMembers {
            left: self,
            count: self.len(),
        }
    }
}

impl Iterator for SmallMembers {
    type Item = u8;

    ghost remaining = { λ s. at_most s.count };

    fn next(&mut self) -> Option<u8> {
        if self.count == 0 {
            return None;
        }
        let v = self.left.first()?;
        self.left = self.left.less(v);
        self.count -= 1;
        Some(v)
    }
}
