//! Solving: any game is decided, with the certificate that shows it. A switching game gets its
//! class by two forests (Lehman 1964), a game on lines its value by a best-first search that asks
//! at most two questions.
#![tactic(auto)]

mod classes;
pub mod laws;
mod questions;
mod solution;
mod solving;

pub use solution::{Class, Solution};
pub use solving::{MIN_POSITIONS, solve};
