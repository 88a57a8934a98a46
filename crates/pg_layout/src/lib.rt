//! Layouts: where the points of a board without a grid lie, and a layout from the bytes of its
//! file, with the first fault.
#![tactic(auto)]

mod chart;
mod fault;
mod laws;
mod line;
mod reading;
mod spot;

pub use chart::{Chart, MAX_CHARTED};
pub use fault::{Fault, MAX_LAYOUT_BYTES};
pub use laws::what_is_read_is_a_layout;
pub use pg_text::FileError as LayoutFault;
pub use reading::read_layout;
pub use spot::{COLUMNS_APART, LINES_APART, MAX_STEPS, Spot, Spots};
