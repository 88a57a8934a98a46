//! Pairs of points below 256.

use crate::small_set::SmallSet;

/// Two points, of which Breaker answers one with the other.
#[derive(Clone, Copy, Debug, PartialEq, Eq)]
pub struct SmallPair {
    /// One point.
    pub a: u8,
    /// The other point.
    pub b: u8,
}

impl SmallPair {
    /// The two points.
    pub fn points(self) -> SmallSet {
        SmallSet::empty().with(self.a).with(self.b)
    }
}
