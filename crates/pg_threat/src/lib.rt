//! Threat lines: attacks that each force one reply, up to a filled line.
//!
//! The search is the threat-space search of Allis, van den Herik and Huntjens (Go-Moku and
//! Threat-Space Search, 1993) to a small depth, and exact: the shortest line, and of these the
//! first.
#![tactic(auto)]

mod lacking;
mod line;
mod search;
mod served;

pub use line::ThreatLine;
pub use search::{forced, forced_after, forced_passed};
pub use served::is_apart;
