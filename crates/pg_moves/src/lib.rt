//! The moves of a game: for each the value of the position after it, by a certificate that a finder
//! brings and that is judged, and then the moves that keep the value of the game.
#![tactic(auto)]

mod best;
mod json_line;
mod lines;
mod order;
mod running;
mod telling;
mod trial;
mod trying;
mod worth;

pub use best::{are_known, best_score};
pub use order::MovesOrder;
pub use running::settle_moves;
pub use trial::{Trial, Worth};
pub use trying::try_moves;
