//! Limits of a search.

use pg_cert::MAX_CLAIM_NODES;

/// The most moves of all positions that a search may expand, together: with a node for each and one
/// for the root a claim has `MAX_CLAIM_NODES` nodes at most.
pub const MAX_EXPANDED_MOVES: u32 = MAX_CLAIM_NODES - 1;

/// The most answers on private pairs that a search keeps where it is given no cache.
pub const MAX_SEARCH_ANSWERS: u32 = 1_024;
