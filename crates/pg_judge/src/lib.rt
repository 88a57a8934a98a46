//! A certificate that is judged for a game as its bytes come.
#![tactic(auto)]

mod claim_head;
mod fault;
mod feeding;
mod judging;
mod told;

pub use claim_head::ClaimHead;
pub use fault::JudgeFault;
pub use judging::{Judging, size_with};
