//! Certificates whose nodes are said as images of others, where they are.
#![tactic(auto)]

mod copying;
mod folding;
mod known;
pub mod laws;
mod marks;
mod original;
mod single;
mod symmetry;
mod tables;

pub use folding::fold;
pub use symmetry::fold_by_symmetry;
