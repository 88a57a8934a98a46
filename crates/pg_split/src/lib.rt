//! Splitting: the positions of a game after as many turns as are allowed, equal ones and images
//! once, and the plan of the moves above them.
#![tactic(auto)]

mod checking;
mod growth;
mod numbering;
mod places;
mod promising;
mod refining;
mod splitting;
mod spot;

pub use numbering::{Piece, Split};
pub use refining::refine;
pub use splitting::{FIRST_FILE, MAX_PIECES, split};
