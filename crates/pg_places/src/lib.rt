//! Places in pictures: where cells, the members of circles and the vertices of graphs lie, and how
//! edges run.
#![tactic(auto)]

mod bridge;
mod circle;
mod course;
mod courses;
mod grid;
mod laid;
pub mod laws;
mod measures;
mod shifts;
mod sines;
mod vertices;

pub use bridge::{columns_of, place_on_bridge};
pub use circle::{place_on_ring, radius_of};
pub use course::{Course, course_of, midway, parallels, place_on};
pub use courses::Courses;
pub use grid::place_on_grid;
pub use laid::{place_of_spot, place_on_chart};
pub use measures::{APART, CELL, HALF, MARGIN, MAX_MIDDLE_REACH, MAX_ON_RING, ROW, TOP};
pub use shifts::{lower, lower_right, upper_left, upper_right};
pub use vertices::Plan;
