//! Requests and answers as bytes: what a caller that isn't written in Rattle passes to a program
//! and gets back, and the words of `posgame-settle`.
#![tactic(auto)]

mod answering;
pub mod laws;
mod options;
mod parts;
mod request;

pub use answering::{ENDED, HEARD, SAID, SKIPPED, answer};
pub use options::{Options, options_of};
pub use parts::cut;
pub use request::Request;
