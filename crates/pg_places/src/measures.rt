//! The measures of boards, in units.

/// The side of a cell.
pub const CELL: u32 = 48;

/// Half the side of a cell.
pub const HALF: u32 = 24;

/// How far a board is from the left side of its picture.
pub const MARGIN: u32 = 24;

/// How far a board is from the top of its picture.
pub const TOP: u32 = 48;

/// How wide a column of a layout is, a quarter of a cell.
pub const COLUMN: u32 = 12;

/// How high a line of a layout is, half a cell.
pub const LINE: u32 = 24;

/// How far apart the vertices of a Bridg-It board are.
pub const APART: u32 = 64;

/// How much further each further edge between the same ends is bent.
pub const BEND: u32 = 44;

/// How far apart the loops at one vertex are.
pub const LOOP: u32 = 30;

/// The most points that lie on a circle.
pub const MAX_ON_RING: u32 = 48;

/// How many points lie in a row where there are more.
pub const ROW: u32 = 16;

/// The furthest that something stands beside its place.
pub const MAX_SHIFT: u32 = 100;

/// How many steps a quarter of a turn has.
pub const QUARTER: u32 = 128;

/// How many steps a turn has.
pub const TURN: u32 = 512;

/// The sine of a quarter of a turn in the table of sines.
pub const SINE_OF_QUARTER: u32 = 10_000;

/// How much the radius of a circle grows with each that lies on it.
pub const SPREAD: u32 = 8;

/// The least radius of a circle.
pub const MIN_RADIUS: u32 = 100;

/// The greatest radius of a circle.
pub const MAX_RADIUS: u32 = 4_000;

/// Both numbers of a place on a circle are below this.
pub const MAX_CIRCLE_REACH: u32 = 131_072;

/// Both numbers of the place of a vertex, or of a point on a board without edges, are below this.
pub const MAX_END_REACH: u32 = 4_194_304;

/// Both numbers of the middle of an edge are below this.
pub const MAX_MIDDLE_REACH: u32 = 4_300_000;
