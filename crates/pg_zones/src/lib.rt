//! A search for the winner of a Maker-Breaker game in which each side claims one point a turn, that
//! keeps what the winner of each decided position needs, and decides others by it.
#![tactic(auto)]

mod averages;
mod combining;
mod descent;
mod expanding;
mod finder;
mod numbers;
mod survey;
mod trials;

pub use descent::{Found, search};
