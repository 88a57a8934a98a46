//! What a board is in characters: the marks and names of its points, and where they are in rows.
#![tactic(auto)]

mod bridges;
mod charts;
mod entries;
pub mod laws;
mod marks;
mod names;
mod paper;
mod sheets;
mod shown;
mod spots;

pub use bridges::paper_rows;
pub use charts::put_chart;
pub use entries::put_entries;
pub use marks::letter_of;
pub use names::{LETTERS, put_name};
pub use sheets::{Sheet, put_sheet};
pub use shown::{COLUMNS, Look, Shown};
