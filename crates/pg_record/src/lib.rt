//! Recorded sessions: games in which moves are played and taken back, each event kept in order;
//! their text; and a session from the bytes of its file, with the first fault.
#![tactic(auto)]

mod event;
mod fault;
pub mod laws;
mod line;
mod printing;
mod reading;
mod session;
mod table;

pub use event::{Event, MAX_EVENTS};
pub use fault::{Fault, MAX_RECORD_BYTES};
pub use laws::{first_record_fault_is_told, printed_record_is_read, what_is_read_is_a_record};
pub use pg_text::FileError as RecordFault;
pub use printing::print_record;
pub use reading::read_record;
pub use session::Session;
