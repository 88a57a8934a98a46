//! The commands of connectivity games and of games on vectors.
#![tactic(auto)]

mod family;
mod laws;
mod opening;
mod span_check;
mod span_play;
mod span_solve;
mod vec_check;
mod vec_play;
mod vec_solve;

pub use family::carry_out_in_family;
pub use laws::announced_family_claims_are_forced;
pub use opening::open_span_cert;
pub use span_check::check_span;
pub use span_play::play_span;
pub use span_solve::solve_span;
pub use vec_check::check_vectors;
pub use vec_play::play_vectors;
pub use vec_solve::solve_vectors;
