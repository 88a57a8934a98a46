//! Opening the layout of a game, as the files of both say it.
#![tactic(auto)]

mod no_layout;
mod opening;
mod telling;

pub use no_layout::{FAULTY_LAYOUT, NoLayout, OTHER_GAME};
pub use opening::open_layout;
pub use telling::tell_no_layout;
