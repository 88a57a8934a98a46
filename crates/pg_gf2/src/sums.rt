//! Whether vectors sum to a vector.
ghost use Rattle.std.specs.Prelude.{◌+◌, ◌≡◌, ◌<◌, ◌≤◌, ◌↔◌, ℕ, true, length, IfOk, IsTrue};
ghost use Rattle.pg_gf2.specs.Prelude.{contains, AreBelow, AreWithin, IsSpanBridge};
ghost use Rattle.pg_gf2.specs.declared.game.TheConstants.{MAX_VECTORS};
ghost use Rattle.pg_gf2.specs.Vectors.{vector_spans};

use crate::elimination::{Elimination, grow, rows_of};
use crate::reduce::reduced;
use pg_base::{Memory, PointSet};
use std::alloc::Global;

/// Whether vector f is the sum of some vectors of the set.
///
/// `Memory` says that there is no room for the rows of an elimination.
pub fn spanned(alloc: Global, vectors: &[u128], set: &PointSet, f: u16) -> Result<bool, Memory>
    requires few { length vectors.now ≤ MAX_VECTORS + 1 }
    requires vector { f < length vectors.now }
    ensures { IfOk result (λ b. b ≡ vector_spans vectors.now (contains set.now) f) }
{
    let rows = rows_of(alloc, vectors, set)?;
    let (left, _members) = reduced(&rows, vectors[f as usize]);
    Ok(left == 0)
}

/// Whether each vector of the one set is the sum of some vectors of the other: by one elimination
/// of the other.
pub(crate) fn spans_all(
    alloc: Global,
    vectors: &[u128],
    set: &PointSet,
    wanted: &PointSet,
) -> Result<bool, Memory>
    requires few { length vectors.now ≤ MAX_VECTORS + 1 }
    requires wanted { AreBelow wanted.now (length vectors.now) }
    ensures { IfOk result (λ b. IsTrue b
        ↔ ((f : ℕ) → contains wanted.now f ≡ true
        → vector_spans vectors.now (contains set.now) f ≡ true)) }
{
    let rows = rows_of(alloc, vectors, set)?;
    for k in 0..vectors.len() as u16 {
        if wanted.has(k) {
            let (left, _members) = reduced(&rows, vectors[k as usize]);
            if left != 0 {
                return Ok(false);
            }
        }
    }
    Ok(true)
}

/// Whether no vector of the one set is the sum of other vectors of the other set, which holds it:
/// so it is just where the former are independent over the rest of the latter, which one
/// elimination tells.
pub(crate) fn are_bridges(
    alloc: Global,
    vectors: &[u128],
    set: &PointSet,
    bridges: &PointSet,
) -> Result<bool, Memory>
    requires few { length vectors.now ≤ MAX_VECTORS + 1 }
    requires bridges { AreBelow bridges.now (length vectors.now) }
    requires within { AreWithin bridges.now set.now }
    ensures { IfOk result (λ b. IsTrue b
        ↔ ((f : ℕ) → contains bridges.now f ≡ true
        → IsSpanBridge (vector_spans vectors.now) (contains set.now) f)) }
{
    let rest = set.without(bridges);
    let rows = rows_of(alloc, vectors, &rest)?;
    let mut solved = Elimination {
        base: PointSet::empty(),
        rows,
    };
    grow(&mut solved, vectors, bridges)?;
    Ok(bridges.is_subset(&solved.base))
}
