//! Joining: what the command does that joins the certificates of the positions into which a game
//! was split to one of the game.
#![tactic(auto)]

mod by_plan;
mod order;
mod plan_file;
mod running;
mod telling;

pub use order::JoinOrder;
pub use running::join;
