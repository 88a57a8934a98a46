//! Classes of switching games: whether Short wins, Cut wins or the side to move wins, with the sets
//! that show it (Lehman, A solution of the Shannon switching game, 1964; by two bases with few
//! common elements Bruno and Weinberg, A constructive graph-theoretic solution of the Shannon
//! switching game, 1970); and the certificates of a class, of one claim and of two.
#![tactic(auto)]

mod bases;
mod certificates;
mod class;
mod class_claims;
mod game;

pub use bases::decide;
pub use certificates::{one_claim, two_claims};
pub use class::Class;
pub use class_claims::class_certificate;
pub use game::classify;
