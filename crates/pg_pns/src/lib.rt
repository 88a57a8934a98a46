//! A search for the answer to a question on a game: whether X reaches a score, with a claim that
//! shows the answer.
#![tactic(auto)]

mod calls;
mod descent;
mod expansion;
mod guide;
pub mod laws;
mod limits;
mod numbers;
mod settle;
mod way;
mod work;

pub use calls::{budget_of, search, search_with};
pub use limits::{MAX_EXPANDED_MOVES, MAX_SEARCH_ANSWERS};
pub use work::{Found, Work};
