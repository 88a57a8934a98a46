//! Shared pairs: two free points for each line that a side must meet, where two lines may have the
//! same two.
#![tactic(auto)]

mod choices;
mod lines;
mod seeking;
mod shared;

pub use shared::shared_pairs;
