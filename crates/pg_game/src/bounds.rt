//! The limits that every game keeps, and a search of one.

/// The most points of a field of lines.
pub const MAX_POINTS: usize = 256;

/// The most lines.
pub const MAX_LINES: usize = 20_000;

/// The most points of a line.
pub const MAX_LINE_POINTS: usize = 100;

/// The most points of a line where Y claims several points a turn, so that sums of weights stay
/// small.
pub const MAX_BIASED_LINE_POINTS: usize = 33;

/// The most points of all lines together, each counted as often as it stands.
pub const MAX_SUMMED_POINTS: usize = 400_000;

/// The most vertices of a graph.
pub const MAX_VERTICES: u16 = 500;

/// The most points that Y claims in a turn.
pub const MAX_BIAS: u8 = 7;

/// The most distinct undecided positions that a search may be asked to expand.
pub const MAX_POSITIONS: u32 = 100_000;
