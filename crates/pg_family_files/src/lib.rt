//! Files of connectivity games and of games on vectors: game files, read by one reader, and
//! certificate files of connectivity games; all read with the first fault, and printed.
#![tactic(auto)]

mod cert_draft;
mod cert_fault;
mod cert_laws;
mod cert_limits;
mod cert_line;
mod cert_printing;
mod cert_reading;
mod draft;
mod family;
mod laws;
mod line;
mod printing;
mod reading;
mod signs;

pub use cert_laws::{
    first_span_cert_fault_is_told, printed_span_cert_is_read, what_is_read_is_within_ranges,
};
pub use cert_limits::{MAX_SPAN_CERT_BYTES, MAX_SPAN_NUMBER};
pub use cert_printing::print_span_cert;
pub use cert_reading::read_span_cert;
pub use laws::{first_fault_is_told, printed_game_is_read, what_is_read_fits};
pub use pg_text::{FileError as CertFault, FileError as GameFault};
pub use printing::{print_span, print_vectors};
pub use reading::{read_span, read_vectors};
