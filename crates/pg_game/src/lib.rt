//! Positional games of four kinds: rules, value, the criteria that everything else cites, and
//! positions that are no worse for a side than others.
#![tactic(auto)]

mod bounds;
mod choice;
mod ending;
mod field;
mod fit;
mod game;
mod judge;
pub mod laws;
mod no_worse;
mod position;
mod rules;
mod switching;
mod value;
mod weights;

pub use bounds::{
    MAX_BIAS, MAX_BIASED_LINE_POINTS, MAX_LINE_POINTS, MAX_LINES, MAX_POINTS, MAX_POSITIONS,
    MAX_SUMMED_POINTS, MAX_VERTICES,
};
pub use choice::free_or_lowest;
pub use ending::{
    at_least, breaker_of, defender, is_over_by, may_attack, outcome_by, x_takes_last,
};
pub use field::{Field, LineField};
pub use game::{Game, Misfit};
pub use judge::{Judge, joiner_for};
pub use no_worse::is_no_worse;
pub use position::{Illegal, Position};
pub use value::reaches;
pub use weights::{Weights, full_weight, greatest_length, lowest_with, total_weight, weigh};
