//! Connectivity games: Maker tries to join all vertices of a multigraph by his edges.
#![tactic(auto)]

mod answers;
mod bases;
mod cert;
mod check;
mod condition;
mod flaw;
mod game;
mod judge;
mod laws;
mod plan;
mod player;
mod solve;
mod solved;

pub use cert::{PART_NUMBERS, SpanBody, SpanCert, SpanClaim, SpanClaims};
pub use check::{SpanChecked, SpanFault, span_check};
pub use flaw::SpanFlaw;
pub use game::SpanGame;
pub use laws::{claims_tell_the_class, faults_are_told, valid_claims_force};
pub use player::{SpanOpen, SpanPlayer};
pub use solve::span_solve;
pub use solved::SpanClass;
