//! Pages: tags with attributes and words, and the text of a page as HTML.
#![tactic(auto)]

mod attribute;
mod laws;
mod piece;
mod printing;
mod tag;

pub use attribute::{Attribute, Attributes, Name};
pub use laws::{pages_are_inert, reader_refuses, reads_back, tags_close_in_order};
pub use piece::{Piece, push_close, push_open, push_words};
pub use printing::{DOCTYPE, print_page};
pub use tag::{LoneTag, Tag};
