//! Settling: a game is decided by a certificate that an untrusted finder brings, and that is judged
//! before anything is stored or said of it.
#![tactic(auto)]

mod answering;
mod budget;
mod delivering;
mod differing;
mod filing;
mod finder;
mod finding;
mod json_line;
mod judging;
mod laws;
mod order;
mod output;
mod running;
mod settling;
mod switching;
mod version;

pub use answering::answer;
pub use budget::{
    Budget, DEFAULT_ENTRIES, DEFAULT_EXPANDED, MAX_ENTRIES, MAX_EXPANDED, MIN_BUDGET, budget_for,
};
pub use finder::Finder;
pub use finding::{Finding, Outcome};
pub use json_line::{line_of, score_word};
pub use judging::shows;
pub use laws::shown_scores_are_values;
pub use order::Order;
pub use running::settle;
pub use switching::classified;
pub use version::VERSION;
