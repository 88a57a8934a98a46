//! What a certificate with turned and reflected nodes stands for.
#![tactic(auto)]

mod board_map;
mod bodies;
mod copying;
mod flaw;
pub mod laws;
mod laying;
mod layout;
mod met;
mod places;
mod room;
mod soundness;
mod unfolded;
mod unfolding;

pub use flaw::Flaw;
pub use laying::lay_out;
pub use layout::Layout;
pub use room::has_room;
pub use unfolded::{ImageFault, Origins, Sources, Unfolded};
pub use unfolding::unfold;
