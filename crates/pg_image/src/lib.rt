//! Certificates in which a node may be the turned or reflected image of another, version 3 of the
//! format: their values, their text and their files.
#![tactic(auto)]

mod cert;
mod draft;
mod image_gathering;
mod image_line;
mod image_lines;
mod image_shortening;
mod laws;
mod node;
mod printing;
mod reading;

pub use cert::{ImageCert, ImageClaim, ImageClaims};
pub use image_gathering::ImageGathering;
pub use laws::{names_the_first_fault, reads_back, reads_within_limits};
pub use node::{ImageNode, ImageNodes};
pub use pg_cert_files::CertFault;
pub use printing::print_image;
pub use reading::read_image;
