//! Printing the proof of a certificate as a book, as its files say it.
#![tactic(auto)]

mod opening;
mod order;
mod running;
mod telling;

pub use order::BookOrder;
pub use running::bind;
