//! Patterns of positions that one criterion decides, in Maker-Breaker games in which each side
//! claims one point a turn: the game is over, a threat line, the potential, and shared pairs.
#![tactic(auto)]

mod hitting;
mod leaves;
mod pairing;
mod threats;

pub use leaves::{over_pattern, pairs_pattern, potential_pattern, threat_pattern};
pub use pairing::{least_lines, shared_pairs};
pub use threats::threat;
