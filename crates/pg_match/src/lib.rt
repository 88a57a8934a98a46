//! Private pairs by matching: two free points of its own for each of some lines, or lines that hold
//! too few.
#![tactic(auto)]

mod cache;
mod chain;
pub mod laws;
mod leaf;
mod matching;
mod meant;
mod rest;
mod seats;

pub use cache::{MAX_CACHED_ANSWERS, PairCache};
pub use leaf::pairs_leaf;
pub use matching::{Matching, private_pairs};
pub use meant::lines_without;
pub use rest::with_rest;
