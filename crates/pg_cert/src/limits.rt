//! The limits of a certificate.

/// The greatest number of claims of a certificate.
pub const MAX_CLAIMS: u32 = 8;

/// The greatest number of nodes of a claim. The numbers of children are below it.
pub const MAX_CLAIM_NODES: u32 = 100_000;

/// The greatest number of nodes of a certificate.
pub const MAX_NODES: u32 = 200_000;
