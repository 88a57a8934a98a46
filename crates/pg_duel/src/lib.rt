//! A game of a person against the program at one terminal: the program plays the side that a claim
//! of a checked certificate speaks of.
#![tactic(auto)]

mod claims;
mod playing;
mod rival;
mod words;

pub use playing::{Challenge, duel};
