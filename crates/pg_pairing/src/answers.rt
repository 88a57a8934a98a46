//! The answer by pairs.
ghost use Rattle.std.specs.Prelude.{◌≡◌, ℕ, ◌<◌, ◌&&◌, ◌||◌, not, false};
ghost use Rattle.std.specs.List.{All, Contains, find, list_any};
ghost use Rattle.std.specs.FinSet as set;
ghost use Rattle.pg_pairing.specs.Prelude.{free_points, is_full, IsPosition, is_open, has_point};
ghost use Rattle.pg_pairing.specs.Prelude.{is_loose, partner, free_partner, pairs_answer};
ghost use Rattle.pg_pairing.specs.Rest.{ArePairsOf, KeepsRest};

use crate::condition::is_outside;
use pg_base::{MAX_MEMBERS, Pair, PointSet};
use pg_game::{Game, Position};

/// The other point of the first pair that has the point.
fn partner(pairs: &[Pair], v: u16) -> Option<u16>
    ensures { result ≡ partner pairs.now v }
{
    for s in pairs {
        if s.a == v {
            return Some(s.b);
        }
        if s.b == v {
            return Some(s.a);
        }
    }
    None
}

/// The partner of the last reply, where it is free.
fn free_partner(p: &Position, pairs: &[Pair], last: Option<u16>) -> Option<u16>
    requires { All (λ s. (s.a < MAX_MEMBERS) × (s.b < MAX_MEMBERS)) pairs.now }
    ensures { result ≡ free_partner p.now pairs.now last }
{
    let b = partner(pairs, last?)?;
    if p.is_free(b) { Some(b) } else { None }
}

/// Puts the points of the pair into the set, where both are free.
fn put_open(p: &Position, opened: &mut PointSet, s: Pair)
    requires a_few { s.a < MAX_MEMBERS }
    requires b_few { s.b < MAX_MEMBERS }
    ensures { (q : ℕ) → set.contains opened.new q
        ≡ (set.contains opened.old q || (is_open p.now s && has_point q s)) }
{
    if p.is_free(s.a) && p.is_free(s.b) {
        opened.put(s.a);
        opened.put(s.b);
    }
}

/// The points of the pairs whose two points are both free.
fn open_points(p: &Position, pairs: &[Pair]) -> PointSet
    requires { All (λ s. (s.a < MAX_MEMBERS) × (s.b < MAX_MEMBERS)) pairs.now }
    ensures { (q : ℕ)
        → set.contains result q ≡ list_any (λ s. is_open p.now s && has_point q s) pairs.now }
{
    let mut opened = PointSet::empty();
    for s in pairs {
        put_open(p, &mut opened, *s);
    }
    opened
}

/// The lowest free point that is not in the set.
fn lowest_outside(g: &Game, p: &Position, points: &PointSet) -> Option<u16>
    ensures { result ≡ find (λ v. not (set.contains points.now v)) (free_points g.now p.now) }
{
    for v in 0..g.points() {
        if is_outside(p, points, v) {
            return Some(v);
        }
    }
    None
}

/// The lowest free point in no pair whose two points are both free.
fn lowest_loose(g: &Game, p: &Position, pairs: &[Pair]) -> Option<u16>
    requires { All (λ s. (s.a < MAX_MEMBERS) × (s.b < MAX_MEMBERS)) pairs.now }
    ensures { result ≡ find (is_loose p.now pairs.now) (free_points g.now p.now) }
{
    lowest_outside(g, p, &open_points(p, pairs))
}

/// The free partner of the last reply, else the lowest free point in no pair whose two points are
/// both free, else the lowest free point, else 0.
fn choose(g: &Game, p: &Position, pairs: &[Pair], last: Option<u16>) -> u16
    requires { All (λ s. (s.a < MAX_MEMBERS) × (s.b < MAX_MEMBERS)) pairs.now }
    ensures { result ≡ pairs_answer g.now p.now pairs.now last }
{
    match free_partner(p, pairs, last) {
        Some(b) => b,
        None => match lowest_loose(g, p, pairs) {
            Some(v) => v,
            None => g.lowest_free(p).unwrap_or(0),
        },
    }
}

/// The answer by pairs to the last reply: its partner where that is free, else the lowest free
/// point in no pair whose two points are both free, else the lowest free point.
///
/// The rest of the pairs are those whose two points are both free. Where the claimer is to move,
/// the rest holds after the answer in three cases: it held before the last reply of the other side;
/// no reply has come and it holds; or the game is Maker-Breaker and it holds, as it does at the
/// second point of a turn. In Avoider-Enforcer the claimer is X. It takes no memory.
pub fn answer(g: &Game, p: &Position, pairs: &[Pair], last: Option<u16>) -> u16
    requires position { IsPosition g.now p.now }
    requires some_free { is_full g.now p.now ≡ false }
    requires pairs { ArePairsOf g.now pairs.now }
    ensures rule { result ≡ pairs_answer g.now p.now pairs.now last }
    ensures free { Contains (free_points g.now p.now) result }
    ensures keeps { KeepsRest g.now p.now pairs.now last result }
{
    choose(g, p, pairs, last)
}
