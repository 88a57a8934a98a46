//! The maps of a board of square cells, turns and reflections: which fit a game, and what they
//! keep.
#![tactic(auto)]

mod fitting;
mod grid_map;
mod images;
pub mod laws;
mod reorder;
mod telling;

pub use fitting::{fits, fitting_maps, is_symmetric};
pub use grid_map::GridMap;
