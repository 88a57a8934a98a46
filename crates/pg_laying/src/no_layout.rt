//! Why there is no layout.
use pg_talk::Halt;

/// The status with which a run ends if the file of a layout is invalid, or isn't for the game.
pub const FAULTY_LAYOUT: u8 = 12;

/// The line that is said if the points of a game have places of their own.
pub const OTHER_GAME: &str = "layout: not for this game\n";

/// Why there is no layout.
#[derive(Clone, Copy, Debug)]
pub enum NoLayout {
    /// The game file is invalid, a call on files failed, or memory ran out.
    Halted(Halt),
    /// The game isn't one on lines without a grid, so its points have places of their own.
    OtherGame,
    /// The file of the layout is invalid.
    Faulty {
        /// The number of the fault.
        number: u8,
        /// The number of its line, 0 for the whole file.
        line: u32,
    },
}
