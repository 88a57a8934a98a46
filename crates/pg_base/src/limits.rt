//! Limits that several crates share.

/// How many points a set can hold: they are the numbers below this.
pub const MAX_MEMBERS: u16 = 1024;

/// The most edges of a graph, so that a set holds them all and one more.
pub const MAX_EDGES: u16 = 1000;
