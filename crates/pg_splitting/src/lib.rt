//! The command that splits a game: the positions after some moves are written to game files in a
//! folder, and the plan of the moves above them; or, if a plan is there, positions of it that
//! stayed unknown are split further.
#![tactic(auto)]

mod depth;
mod looking;
mod order;
mod preparing;
mod running;
mod storing;
mod survey;
mod telling;

pub use order::{DEFAULT_PIECES, SplitOrder};
pub use pg_split::MAX_PIECES;
pub use preparing::Decline;
pub use running::split_game;
