//! Certificate files: a strict text of claims and nodes, read with the first fault of what is none.
#![tactic(auto)]

mod cert_gathering;
mod cert_reader;
mod cert_state;
mod fed;
mod gathered_parts;
mod laws;
mod limits;
mod progress;
mod reader;
mod reading;
mod shortening;

pub use cert_gathering::CertGathering;
pub use cert_state::CertReader;
pub use fed::Fed;
pub use laws::{names_the_first_fault, reads_back, reads_within_limits};
pub use limits::MAX_CERT_BYTES;
pub use pg_cert_lines::Fault;
pub use pg_text::FileError as CertFault;
pub use progress::{Due, Progress};
pub use reading::read_cert;
pub use shortening::{Ends, SHORT_LINE_BYTES, spare};
