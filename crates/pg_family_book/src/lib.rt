//! Certificates of connectivity games and of games on vectors as books.
#![tactic(auto)]

mod laws;
mod leaf;
mod page;
mod printing;
mod rules;
mod spans;
mod tables;
mod vectors;

pub use laws::{family_books_are_whole, family_links_lead_to_sections, leaves_have_sections};
pub use leaf::{Leaf, Rows, Table};
pub use printing::{TABLES, print_leaves};
pub use spans::{LEGEND_EDGES, print_span_book};
pub use vectors::{LEGEND_VECTORS, print_vector_book};
