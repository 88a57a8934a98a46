//! Files and a console as traits, and in memory.
#![tactic(auto)]

mod console;
mod entry;
mod failing;
mod files;
mod mem_console;
mod mem_files;
mod reading;
mod sink;
mod stop;
mod text;

pub use console::Console;
pub use entry::{Entry, Heard};
pub use files::{Failed, Files};
pub use mem_console::MemConsole;
pub use mem_files::MemFiles;
pub use reading::{MAX_PIECE_BYTES, pour, read_whole, store};
pub use sink::Sink;
pub use stop::Stop;
pub use text::Text;
