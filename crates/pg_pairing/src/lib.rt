//! Pairs of free points of which a side needs one each: the test, what it forces, and the answer to
//! a reply.
#![tactic(auto)]

mod answers;
mod condition;
pub mod laws;
mod partners;

pub use answers::answer;
pub use condition::holds;
