//! Games in which X wants its points to pass a test, and the switching game among them: trees, cuts
//! and parts, whether they hold, what they force, and the answers to a reply.
//!
//! A reply is met as Lehman does it (A solution of the Shannon switching game, 1964): where the
//! other side has taken an edge of one of two sets, an edge of the other set is claimed that makes
//! good for it.
#![tactic(auto)]

mod answers;
mod condition;
pub mod laws;
mod plan;

pub use answers::{lowest_free, or_lowest, short_edge};
pub use condition::{cuts_hold, trees_hold};
pub use plan::{CutPlan, ShortPlan, answered_edge, without_both};
