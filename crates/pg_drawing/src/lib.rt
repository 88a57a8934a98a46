//! Drawing a game, or a node of a certificate, as its files say it.
#![tactic(auto)]

mod board;
mod claims;
mod incoming;
mod name;
mod opening;
mod picturing;
mod running;
mod standing;
mod telling;
mod vectors;

pub use board::Board;
pub use name::{DOT, NodeName};
pub use opening::open_board;
pub use picturing::{NO_NODE, Telling};
pub use running::{draw, end_with};
