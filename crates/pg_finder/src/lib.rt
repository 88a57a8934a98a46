//! The finder of settling: it asks a search one question on a game, or two, and brings a
//! certificate of the answers.
#![tactic(auto)]

mod asking;
mod bringing;
mod searching;

pub use asking::ProofNumbers;
