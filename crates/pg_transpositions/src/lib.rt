//! A transposition table: what positions are known by, the numbers that are kept of each, and what
//! the moves of a position tell by these.
#![tactic(auto)]

mod moves;
mod numbers;
mod outlook;
mod signature;
mod survey;
mod table;

pub use moves::{Move, Moves, survey_at};
pub use numbers::{Numbers, State, first_numbers};
pub use signature::{Signature, Signatures};
pub use survey::{Frame, Survey};
pub use table::Table;
