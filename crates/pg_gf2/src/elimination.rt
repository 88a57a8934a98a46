//! Elimination, and the base that it grows.
ghost use Rattle.std.specs.Prelude.{◌+◌, ◌≡◌, ◌≢◌, ◌<◌, ◌≤◌, ℕ, Bool, false, length, IfOk};
ghost use Rattle.pg_gf2.specs.Prelude.{contains, below, either, swapped, IsFree, IsGrown};
ghost use Rattle.pg_gf2.specs.declared.game.TheConstants.{MAX_VECTORS};
ghost use Rattle.pg_gf2.specs.Vectors.{vector_at, spans_over};
ghost use Rattle.pg_gf2.specs.Rows.{IsEliminated, HasRow, AreTurned};

use crate::reduce::{differ, reduced};
use crate::row::Row;
use pg_base::{MAX_MEMBERS, Memory, PointSet};
use std::alloc::Global;

/// A base, and rows that tell what its members span together with vectors of X's.
#[derive(Drop)]
pub(crate) struct Elimination {
    pub(crate) base: PointSet,
    pub(crate) rows: Vec<Row>,
}

/// Adds a row with this value, which isn't zero.
fn add_row(rows: &mut Vec<Row>, value: u128, members: &PointSet) -> Result<(), Memory>
    requires { value ≢ 0 }
    ensures { IfOk result (λ _. HasRow rows.old.items rows.new.items value members.now) }
{
    let bit = value.trailing_zeros();
    rows.push(Row {
        bit,
        value,
        members: *members,
    })?;
    Ok(())
}

/// Rows of the vectors of x, with no members.
pub(crate) fn rows_of(alloc: Global, vectors: &[u128], x: &PointSet) -> Result<Vec<Row>, Memory>
    requires { length vectors.now ≤ MAX_VECTORS + 1 }
    ensures { IfOk result (λ rows. IsEliminated (vector_at vectors.now) (length vectors.now)
        (contains x.now) (λ _. false) (contains x.now) rows.items) }
{
    let mut rows = Vec::new(alloc);
    for k in 0..vectors.len() as u16 {
        if x.has(k) {
            let (left, _none) = reduced(&rows, vectors[k as usize]);
            if left != 0 {
                add_row(&mut rows, left, &PointSet::empty())?;
            }
        }
    }
    Ok(rows)
}

/// Takes each candidate, in ascending order, that X's vectors and the base don't span into the
/// base.
pub(crate) fn grow(
    solved: &mut Elimination,
    vectors: &[u128],
    candidates: &PointSet,
) -> Result<(), Memory>
    requires few { length vectors.now ≤ MAX_VECTORS + 1 }
    ensures grown { IfOk result
        (λ _. (x : ℕ → Bool) → IsEliminated (vector_at vectors.now) (length vectors.now) x
        (contains solved.old.base) (either x (contains solved.old.base)) solved.old.rows.items
        → IsFree (spans_over vectors.now x) (contains solved.old.base)
        → IsGrown (spans_over vectors.now x) (contains solved.old.base)
        (below (contains candidates.now) (length vectors.now)) (contains solved.new.base)) }
    ensures eliminated { IfOk result
        (λ _. (x : ℕ → Bool) → IsEliminated (vector_at vectors.now) (length vectors.now) x
        (contains solved.old.base) (either x (contains solved.old.base)) solved.old.rows.items
        → IsEliminated (vector_at vectors.now) (length vectors.now) x (contains solved.new.base)
        (either x (contains solved.new.base)) solved.new.rows.items) }
{
    for k in 0..vectors.len() as u16 {
        if candidates.has(k) {
            let (left, members) = reduced(&solved.rows, vectors[k as usize]);
            if left != 0 {
                let mut own = members;
                own.put(k);
                add_row(&mut solved.rows, left, &own)?;
                solved.base.put(k);
            }
        }
    }
    Ok(())
}

/// Adds `changed` to the members of each row that has the member `out`.
fn turn(rows: &mut [Row], out: u16, changed: &PointSet)
    requires { out < MAX_MEMBERS }
    ensures { AreTurned out (contains changed.now) rows.old rows.new }
{
    for row in rows.iter_mut() {
        if row.members.has(out) {
            row.members = differ(&row.members, changed);
        }
    }
}

impl Elimination {
    /// Takes `out` out of the base and puts `into` into it, where `changed`, which has both, sums
    /// to a vector of X's.
    pub(crate) fn swap(&mut self, out: u16, into: u16, changed: &PointSet)
        requires out { out < MAX_MEMBERS }
        requires into { into < MAX_MEMBERS }
        ensures base { contains self.new.base ≡ swapped (contains self.old.base) out into }
        ensures rows { AreTurned out
            (contains changed.now) self.old.rows.items self.new.rows.items }
    {
        self.base.take(out);
        self.base.put(into);
        turn(&mut self.rows, out, changed);
    }
}
