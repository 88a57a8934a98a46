//! The files and the console of the system, and the words of the command line.
#![tactic(auto)]

mod given;
mod host_console;
mod host_files;
mod inside;
mod part;
mod place;
mod stored;
mod streams;

pub use given::{say_unreadable, words_given};
pub use host_console::HostConsole;
pub use host_files::HostFiles;
pub use part::MAX_PART_NAMES;
pub use place::are_same;
pub use streams::guard_streams;
