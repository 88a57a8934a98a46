//! Sets of pairs of five points.
use pg_base::{Pair, Pairs};
use std::alloc::{AllocError, Global};

/// The pairs of two of five points.
const PAIRS: [Pair; 10] = [
    Pair { a: 0, b: 1 },
    Pair { a: 0, b: 2 },
    Pair { a: 3, b: 0 },
    Pair { a: 0, b: 4 },
    Pair { a: 1, b: 2 },
    Pair { a: 1, b: 3 },
    Pair { a: 4, b: 1 },
    Pair { a: 2, b: 3 },
    Pair { a: 2, b: 4 },
    Pair { a: 3, b: 4 },
];

/// The pairs that a number names: the binary digit of each, counted from the lowest, says whether
/// it is among them.
fn pairs_of(alloc: Global, number: u16) -> Result<Pairs, AllocError> {
    let mut members = Vec::new(alloc);
    for i in 0..10 {
        if number >> i & 1 == 1 {
            members.push(PAIRS[i])?;
        }
    }
    Ok(Pairs::from_vec(members))
}

/// All sets of pairs of five points, also those that share points.
pub(crate) fn all_pairings(alloc: Global) -> Result<Vec<Pairs>, AllocError> {
    let mut sets = Vec::new(alloc);
    for number in 0..1024 {
        sets.push(pairs_of(alloc, number)?)?;
    }
    Ok(sets)
}
