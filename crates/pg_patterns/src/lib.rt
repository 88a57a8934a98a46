//! Patterns of Maker-Breaker games in which each side claims one point a turn: what a side needs to
//! win. A table of what a search knows has the patterns by what is held, and positions.
#![tactic(auto)]

mod arena;
mod known;
mod maps;
mod numbers;
mod pattern;
mod small_pair;
mod small_set;
mod spot;
mod trie;
mod weights;

pub use arena::Arena;
pub use known::{Entry, Glimpse, Known, Undecided};
pub use maps::Maps;
pub use numbers::Numbers;
pub use pattern::{Image, Pattern, Reason};
pub use small_pair::SmallPair;
pub use small_set::{SmallMembers, SmallSet};
pub use spot::Spot;
pub use weights::{Weighed, Weights, heaviest_first, total_weight, weigh};
