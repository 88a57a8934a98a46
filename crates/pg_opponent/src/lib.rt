//! The program's side of a game against a person: a player by a checked certificate beside a
//! session, which keeps what both sides have played.
//!
//! The player makes each move that it owes at once, so after each call the game is over or the
//! person is to move. What stands is determined by the person's replies alone.
#![tactic(auto)]

mod seat;

pub use seat::{OwnPoint, Seat};
