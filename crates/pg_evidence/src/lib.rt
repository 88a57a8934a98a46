//! Certificates of either form, with images or without: which form a file has, for what it stands,
//! and what judging it finds.
#![tactic(auto)]

mod arriving;
mod evidence;
mod first_line;
mod folded;
mod heads;
mod incoming;
mod judging;
mod kept;
mod opening;
mod standing;
mod verdict;

pub use evidence::Evidence;
pub use judging::judge_evidence;
pub use opening::open_evidence;
pub use standing::{Standing, check_standing, standing_of};
pub use verdict::Verdict;
