//! The limit of a certificate's file.

/// The greatest number of bytes of a certificate's file.
pub const MAX_CERT_BYTES: usize = 268_435_456;
