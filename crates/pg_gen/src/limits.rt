//! Limits of the games that are made.

/// The most rows of a Bridg-it board.
pub const MAX_BRIDGE_ROWS: u32 = 22;

/// The greatest length of a side of a square whose rows, columns and diagonals are the lines.
pub const MAX_SQUARE_SIDE: u32 = 16;

/// The greatest seed of a game that is drawn.
pub const MAX_SEED: u32 = 2_147_483_647;
