//! Game files: a text of lines and words, read with the first fault of what is none, and printed.
#![tactic(auto)]

mod draft;
mod fault;
mod field;
mod frame;
mod key;
mod laws;
mod limits;
mod line;
mod parts;
mod position;
mod printing;
mod reading;
mod sets;

pub use fault::Fault;
pub use laws::{first_fault_is_told, printed_game_is_read, what_is_read_fits};
pub use limits::MAX_GAME_BYTES;
pub use parts::{begins_comment, is_printable, two_numbers};
pub use pg_text::FileError as GameFault;
pub use printing::{print_game, put_edges, put_last, put_numbers};
pub use reading::read_game;
pub use sets::{are_below, repeats, set_of};
