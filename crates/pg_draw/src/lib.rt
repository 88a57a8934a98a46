//! Scenes laid out as pictures: the shapes of what is to be seen on a board, each at its place.
#![tactic(auto)]

mod boards;
mod drawing;
mod items;
pub mod laws;
mod marks;
mod measures;
mod paints;
mod sheet;
mod size;
mod table;
mod words;

pub use drawing::draw;
pub use measures::MAX_BOARDS;
pub use table::place_in_table;
