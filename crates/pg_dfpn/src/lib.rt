//! An exact search for the answer to a question on a game on lines, of any kind and bias, that
//! counts the nodes that it keeps and not the positions that it meets.
#![tactic(auto)]

mod descent;
mod drafting;
mod judging;
mod moving;
mod plunging;
mod settling;
mod widening;

pub use settling::{Settled, Settling, settle};
