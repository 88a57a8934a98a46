//! What books are made of: elements, the pages of a claim and links to them, moves in words, how
//! positions come about, and pictures with links and choices over them.
#![tactic(auto)]

mod chapter;
mod elements;
mod layout;
mod origins;
mod over;
mod shapes;
mod words;

pub use chapter::{Chapter, MISSING, Page, number_after, page_id, push_link};
pub use elements::{push_labelled, push_paragraph, push_plain};
pub use layout::Layout;
pub use origins::{Origin, push_origin};
pub use over::{EDGE_RADIUS, MARK_RADIUS, RING_RADIUS, SQUARE_HALF, SQUARE_SIDE, push_over};
pub use shapes::{VIEW_TOP, push_shapes, view_of};
pub use words::{act_words, put_point, side_words};
