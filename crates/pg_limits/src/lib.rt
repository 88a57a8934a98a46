//! What a search may use, and who is told how far it is.
#![tactic(auto)]

mod limits;
mod progress;

pub use limits::Limits;
pub use progress::{Progress, Unwatched, Watch, note_nodes};
