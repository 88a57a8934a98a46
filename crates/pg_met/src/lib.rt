//! The positions that a search has met: each once, at its place, with its moves once it is
//! expanded, the places before it, its answer, and the nodes that show the answers.
#![tactic(auto)]

mod asked;
mod claims;
mod known;
mod lists;
mod met;
mod table;

pub use asked::Asked;
pub use claims::Claims;
pub use known::{Answered, known_by_moves};
pub use lists::{Moves, Places};
pub use met::Met;
pub use table::{Expansion, Table, meet_after};
