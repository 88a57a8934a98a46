//! The statuses with which the program ends.

/// What was asked for is done.
pub const DONE: u8 = 0;

/// The question stayed open: as many positions were expanded as were allowed.
pub const UNKNOWN: u8 = 1;

/// The words have no meaning, or the certificate has no claim of the side that is to be played.
pub const NO_MEANING: u8 = 2;

/// The game file has a fault.
pub const FAULTY_GAME: u8 = 3;

/// The certificate file has a fault, or the certificate isn't valid for the game.
pub const REFUSED: u8 = 4;

/// A call that reads has failed, or a name isn't held.
pub const READ_FAILED: u8 = 5;

/// A call that writes has failed.
pub const WRITE_FAILED: u8 = 6;

/// Memory is wanting.
pub const NO_MEMORY: u8 = 7;

/// The input has ended before the game that is played.
pub const INPUT_ENDED: u8 = 8;

/// So many replies were refused that no more are heard.
pub const OUT_OF_REPLIES: u8 = 9;

/// The record file has a fault.
pub const FAULTY_RECORD: u8 = 10;

/// The system refuses the words of the command line, for another cause than memory.
pub const NO_WORDS: u8 = 11;
