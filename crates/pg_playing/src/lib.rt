//! A game played by two people at one terminal.
#![tactic(auto)]

mod bout;
mod dialogue;
pub mod laws;
mod note;
mod playing;
mod screen;
mod table;

pub use bout::{Bout, Next, Telling, Turn};
pub use dialogue::{MAX_HEARD, play_to_the_end};
pub use note::{Note, put_note};
pub use playing::{Order, play, store, turned_to};
pub use screen::{shown_of, shown_text};
pub use table::{Table, claimed, open_table};
