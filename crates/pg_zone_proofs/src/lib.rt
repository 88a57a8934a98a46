//! The winner of a Maker-Breaker game in which each side claims one point a turn, with a claim that
//! is to show it: the patterns of a search, written as nodes.
#![tactic(auto)]

mod bodies;
mod drafting;
mod numbers;
mod replies;
mod settling;
mod standing;
mod uses;

pub use settling::settle;
