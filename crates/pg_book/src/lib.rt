//! Certificates as books: a page of HTML without script, in which each node of a claim is a section
//! with its picture, a sentence, and links to what follows.
#![tactic(auto)]

mod book;
mod front;
mod laws;
mod scenes;
mod sections;
mod sentences;
mod sheet;

pub use book::{print_book, push_html};
pub use front::{LEGEND, MAX_SECTIONS, NOTHING_RUNS, TITLE, push_metas};
pub use laws::{
    books_are_whole, first_moves_are_shown, links_lead_to_sections, nodes_have_pages,
    nodes_have_sections,
};
pub use sections::{page_attributes, push_heading};
pub use sheet::STYLE;
