//! A board as it is shown on a terminal, and what a line typed at it means.
#![tactic(auto)]

mod board;
pub mod laws;
mod open_lines;
mod reply;
mod words;

pub use board::put_board;
pub use open_lines::{MAX_SHOWN_LINES, put_lines};
pub use reply::{Reply, read_reply};
pub use words::{COMMANDS, put_goals, put_help, put_result, put_turn};
