//! Polyominoes, as words and by their placements in a grid, which are the lines of Harary's games.
#![tactic(auto)]

mod cell;
mod corners;
pub mod laws;
mod limits;
mod links;
mod motion;
mod placing;
mod shape;

pub use cell::Cell;
pub use limits::{MAX_CELLS, MAX_GRID_CELLS};
pub use links::is_connected;
pub use placing::{placed, placements};
pub use shape::{Shape, ShapeFault};
