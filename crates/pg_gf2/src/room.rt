//! Eliminations in room that was made before: none of these takes memory.
ghost use Rattle.std.specs.Prelude.{◌+◌, ◌≡◌, ◌≢◌, ◌<◌, ◌≤◌, ℕ, false, true, length, not, ◌&&◌};
ghost use Rattle.std.specs.Prelude.{find, Option, None};
ghost use Rattle.pg_gf2.specs.Prelude.{contains, empty, range_with_len, vec_len, vec_capacity};
ghost use Rattle.pg_gf2.specs.Prelude.{minus, outside, IsWithin};
ghost use Rattle.pg_gf2.specs.declared.game.TheConstants.{MAX_VECTORS};
ghost use Rattle.pg_gf2.specs.Answers.{lowest_needed};
ghost use Rattle.pg_gf2.specs.Vectors.{vector_at, vector_spans};
ghost use Rattle.pg_gf2.specs.Rows.{IsEliminated, HasRow};

use crate::reduce::rest;
use crate::row::Row;
use pg_base::{MAX_MEMBERS, PointSet};

/// Adds a row with this value, which isn't zero, and no members.
fn put_row(rows: &mut Vec<Row>, value: u128)
    requires some { value ≢ 0 }
    requires room { vec_len rows.old < vec_capacity rows.old }
    ensures row { HasRow rows.old.items rows.new.items value empty }
    ensures len { vec_len rows.new ≡ vec_len rows.old + 1 }
    ensures capacity { vec_capacity rows.old ≤ vec_capacity rows.new }
{
    let row = Row {
        bit: value.trailing_zeros(),
        value,
        members: PointSet::empty(),
    };
    let Ok(()) = rows.push(row) else {
        unreachable!()
    };
}

/// Writes rows of the vectors of the set over the earlier ones, and tells the vectors that gave a
/// row.
fn fill(rows: &mut Vec<Row>, vectors: &[u128], set: &PointSet) -> PointSet
    requires few { length vectors.now ≤ MAX_VECTORS + 1 }
    requires room { length vectors.now ≤ vec_capacity rows.old }
    ensures eliminated { IsEliminated (vector_at vectors.now) (length vectors.now)
        (contains set.now) (λ _. false) (contains set.now) rows.new.items }
    ensures within { IsWithin (contains result) (contains set.now) }
    ensures room { length vectors.now ≤ vec_capacity rows.new }
{
    rows.clear();
    let mut base = PointSet::empty();
    for k in 0..vectors.len() as u16 {
        if set.has(k) {
            let left = rest(rows, vectors[k as usize]);
            if left != 0 {
                put_row(rows, left);
                base.put(k);
            }
        }
    }
    base
}

/// Whether vector f is the sum of some vectors of the set.
pub fn spans(rows: &mut Vec<Row>, vectors: &[u128], set: &PointSet, f: u16) -> bool
    requires few { length vectors.now ≤ MAX_VECTORS + 1 }
    requires room { length vectors.now ≤ vec_capacity rows.old }
    requires vector { f < length vectors.now }
    ensures spans { result ≡ vector_spans vectors.now (contains set.now) f }
    ensures room { length vectors.now ≤ vec_capacity rows.new }
{
    fill(rows, vectors, set);
    let left = rest(rows, vectors[f as usize]);
    left == 0
}

/// The lowest candidate among the first n vectors that the set doesn't span.
pub fn lowest_unspanned(
    rows: &mut Vec<Row>,
    vectors: &[u128],
    n: u16,
    set: &PointSet,
    candidates: &PointSet,
) -> Option<u16>
    requires few { length vectors.now ≤ MAX_VECTORS + 1 }
    requires room { length vectors.now ≤ vec_capacity rows.old }
    requires vectors { n ≤ length vectors.now }
    ensures lowest { result ≡ find
        (λ k. contains candidates.now k && not (vector_spans vectors.now (contains set.now) k))
        (range_with_len 0 n) }
    ensures room { length vectors.now ≤ vec_capacity rows.new }
{
    fill(rows, vectors, set);
    for k in 0..n {
        if candidates.has(k) {
            let left = rest(rows, vectors[k as usize]);
            if left != 0 {
                return Some(k);
            }
        }
    }
    None
}

/// The set without d.
fn without(set: &PointSet, d: u16) -> PointSet
    requires { d < MAX_MEMBERS }
    ensures { contains result ≡ minus (contains set.now) d }
{
    let mut others = *set;
    others.take(d);
    others
}

/// The base, and the candidates of the set that aren't below the limit.
fn with_above(base: &PointSet, set: &PointSet, candidates: &PointSet, limit: u16) -> PointSet
    requires limit { limit ≤ MAX_VECTORS + 1 }
    requires base { IsWithin (contains base.now)
        (outside (contains set.now) (contains candidates.now)) }
    ensures { (d : ℕ) → d < limit
        → contains candidates.now d ≡ true
        → IsWithin (contains result) (minus (contains set.now) d) }
{
    let shared = set.without(&set.without(candidates));
    base.union(&shared.without(&PointSet::all_below(limit)))
}

/// A limit below which no candidate is needed: without all of those the set still spans x.
///
/// It is found by halving, where a base stands for what of the set isn't a candidate. That the
/// limit is the highest is what spares time, and nothing rests on it.
fn unneeded_below(
    rows: &mut Vec<Row>,
    vectors: &[u128],
    n: u16,
    set: &PointSet,
    x: u16,
    candidates: &PointSet,
) -> u16
    requires few { length vectors.now ≤ MAX_VECTORS + 1 }
    requires room { length vectors.now ≤ vec_capacity rows.old }
    requires vectors { n ≤ length vectors.now }
    requires vector { x < length vectors.now }
    ensures unneeded { (d : ℕ) → d < result
        → contains candidates.now d ≡ true
        → vector_spans vectors.now (minus (contains set.now) d) x ≡ true }
    ensures room { length vectors.now ≤ vec_capacity rows.new }
{
    let base = fill(rows, vectors, &set.without(candidates));
    let (mut low, mut high) = (0, n);
    while low + 1 < high {
        let middle = low + (high - low) / 2;
        let tried = with_above(&base, set, candidates, middle);
        if spans(rows, vectors, &tried, x) {
            low = middle;
        } else {
            high = middle;
        }
    }
    low
}

/// The lowest candidate among the first n vectors without which the set doesn't span x, where each
/// below `from` is such that it does.
fn lowest_parting(
    rows: &mut Vec<Row>,
    vectors: &[u128],
    from: u16,
    n: u16,
    set: &PointSet,
    x: u16,
    candidates: &PointSet,
) -> Option<u16>
    requires few { length vectors.now ≤ MAX_VECTORS + 1 }
    requires room { length vectors.now ≤ vec_capacity rows.old }
    requires vectors { n ≤ length vectors.now }
    requires vector { x < length vectors.now }
    requires unneeded { (d : ℕ) → d < from
        → contains candidates.now d ≡ true
        → vector_spans vectors.now (minus (contains set.now) d) x ≡ true }
    ensures lowest { result ≡ find (λ d. contains candidates.now d
        && not (vector_spans vectors.now (minus (contains set.now) d) x)) (range_with_len 0 n) }
    ensures room { length vectors.now ≤ vec_capacity rows.new }
{
    for d in from..n {
        if candidates.has(d) && !spans(rows, vectors, &without(set, d), x) {
            return Some(d);
        }
    }
    None
}

/// The lowest candidate among the first n vectors without which the set doesn't span x, and None
/// where it doesn't anyway.
///
/// Halving finds where to look. Where candidates bridge the set, as those of cuts do, the first
/// from there on is the one that is sought. So there are three eliminations of the set, and at most
/// ten of as many vectors as two bases have.
pub fn lowest_needed(
    rows: &mut Vec<Row>,
    vectors: &[u128],
    n: u16,
    set: &PointSet,
    x: u16,
    candidates: &PointSet,
) -> Option<u16>
    requires few { length vectors.now ≤ MAX_VECTORS + 1 }
    requires room { length vectors.now ≤ vec_capacity rows.old }
    requires vectors { n ≤ length vectors.now }
    requires vector { x < length vectors.now }
    ensures lowest { result
        ≡ lowest_needed (vector_spans vectors.now) n (contains set.now) x candidates.now }
    ensures room { length vectors.now ≤ vec_capacity rows.new }
{
    if spans(rows, vectors, set, x) {
        let from = unneeded_below(rows, vectors, n, set, x, candidates);
        lowest_parting(rows, vectors, from, n, set, x, candidates)
    } else {
        None
    }
}
