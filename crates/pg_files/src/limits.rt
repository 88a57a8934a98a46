//! The limit of a game's file.

/// The greatest number of bytes of a game's file.
pub const MAX_GAME_BYTES: usize = 4_194_304;
