//! The limits of a connectivity game's certificate.

/// The greatest number of bytes of a certificate's file.
pub const MAX_SPAN_CERT_BYTES: usize = 4_194_304;

/// The greatest number in a certificate: an edge, or the number of a vertex's part.
pub const MAX_SPAN_NUMBER: u16 = 999;
