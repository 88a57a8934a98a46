//! What is left of a claim's sets.
use pg_base::PointSet;

/// Two sets of vectors that stand for a side: trees for X, cuts for Y.
#[derive(Clone, Copy, Debug)]
pub struct VecPlan {
    /// One set, which may hold the target before the first move.
    pub first: PointSet,
    /// The other.
    pub second: PointSet,
}
