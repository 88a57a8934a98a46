//! Searches along the links of a base.
ghost use Rattle.std.specs.Prelude.{◌≡◌, ◌<◌, ◌≤◌, ℕ, true, false, IfSome, IfNone, length};
ghost use Rattle.pg_exchange.specs.Prelude.{contains, both, either, minus, outside};
ghost use Rattle.pg_exchange.specs.Chain.{links, IsNoted, IsRolled, IsNext};

use crate::ground::Ground;
use pg_base::{MAX_MEMBERS, PointSet};

/// How a search came to an element: from the element `up`, by a link of the second base or of the
/// first.
#[derive(Clone, Copy)]
pub(crate) struct Parent {
    pub(crate) up: u16,
    pub(crate) second: bool,
}

/// Adds what f links to by one base, and to those left to follow what is new of it.
pub(crate) fn follow<G: Ground>(ground: &mut G, f: u16, seen: &mut PointSet, todo: &mut PointSet)
    requires { (G.matroid ground.old).elements f ≡ true }
    ensures seen { contains seen.new
        ≡ either (contains seen.old) (links (G.matroid ground.old) (G.base ground.old) f) }
    ensures todo { contains todo.new ≡ either (contains todo.old)
        (outside (links (G.matroid ground.old) (G.base ground.old) f) (contains seen.old)) }
    ensures kept { G.matroid ground.new ≡ G.matroid ground.old }
    ensures kept_base { G.base ground.new ≡ G.base ground.old }
{
    if !ground.member(f) {
        let found = ground.circuit(f);
        let fresh = found.without(seen);
        *seen = seen.union(&fresh);
        *todo = todo.union(&fresh);
    }
}

/// Writes f, and which base, at each member of the set.
fn note(parents: &mut [Parent], fresh: &PointSet, f: u16, by_second: bool)
    requires { length parents.old ≡ MAX_MEMBERS }
    ensures { IsNoted (contains fresh.now) f by_second parents.old parents.new }
{
    let mut next = 0;
    while let Some(i) = fresh.first_from(next) {
        parents[i as usize] = Parent {
            up: f,
            second: by_second,
        };
        next = i + 1;
    }
}

/// As `follow`, and notes f at what is new.
pub(crate) fn explore<G: Ground>(
    ground: &mut G,
    f: u16,
    by_second: bool,
    seen: &mut PointSet,
    todo: &mut PointSet,
    parents: &mut [Parent],
)
    requires element { (G.matroid ground.old).elements f ≡ true }
    requires parents { length parents.old ≡ MAX_MEMBERS }
    ensures seen { contains seen.new
        ≡ either (contains seen.old) (links (G.matroid ground.old) (G.base ground.old) f) }
    ensures todo { contains todo.new ≡ either (contains todo.old)
        (outside (links (G.matroid ground.old) (G.base ground.old) f) (contains seen.old)) }
    ensures kept { G.matroid ground.new ≡ G.matroid ground.old }
    ensures kept_base { G.base ground.new ≡ G.base ground.old }
    ensures noted { IsNoted
        (outside (links (G.matroid ground.old) (G.base ground.old) f) (contains seen.old)) f
        by_second parents.old parents.new }
{
    if !ground.member(f) {
        let found = ground.circuit(f);
        let fresh = found.without(seen);
        *seen = seen.union(&fresh);
        *todo = todo.union(&fresh);
        note(parents, &fresh, f, by_second);
    }
}

/// The points of both sets.
pub(crate) fn shared(a: &PointSet, b: &PointSet) -> PointSet
    ensures { contains result ≡ both (contains a.now) (contains b.now) }
{
    a.without(&a.without(b))
}

/// The least point of both sets, and None exactly where they share none.
pub(crate) fn first_shared(a: &PointSet, b: &PointSet) -> Option<u16>
    ensures found { IfSome result (λ y. both (contains a.now) (contains b.now) y ≡ true) }
    ensures least { IfSome result
        (λ y. (z : ℕ) → both (contains a.now) (contains b.now) z ≡ true → y ≤ z) }
    ensures none { IfNone result
        ((z : ℕ) → both (contains a.now) (contains b.now) z ≡ false) }
{
    if a.shares_none(b) {
        return None;
    }
    if let Some(y) = shared(a, b).first_from(0) {
        Some(y)
    } else {
        None
    }
}

/// Takes the least element of the level that is being followed, and goes to the next level where
/// this one is done.
pub(crate) fn take_next(level: &mut PointSet, later: &mut PointSet) -> Option<u16>
    ensures range { IfSome result (λ f. f < MAX_MEMBERS) }
    ensures found { IfSome result (λ f. either (contains level.old) (contains later.old) f ≡ true) }
    ensures levels { IfSome result (λ f. IsNext (contains level.old) (contains later.old)
        (contains level.new) (contains later.new) f) }
    ensures taken { IfSome result (λ f. either (contains level.new) (contains later.new)
        ≡ minus (either (contains level.old) (contains later.old)) f) }
    ensures none { IfNone result
        ((f : ℕ) → either (contains level.old) (contains later.old) f ≡ false) }
{
    go_on(level, later);
    if let Some(f) = level.first_from(0) {
        level.take(f);
        later.take(f);
        Some(f)
    } else {
        None
    }
}

/// Goes to the next level where this one is done.
fn go_on(level: &mut PointSet, later: &mut PointSet)
    ensures same { either (contains level.new) (contains later.new)
        ≡ either (contains level.old) (contains later.old) }
    ensures empty { ((f : ℕ) → contains level.new f ≡ false) → (f : ℕ)
        → contains later.new f ≡ false }
    ensures rolled { IsRolled (contains level.old) (contains later.old) (contains level.new)
        (contains later.new) }
{
    if level.is_below(0) {
        *level = *later;
        *later = PointSet::empty();
    }
}

/// The members of the base.
pub(crate) fn members<G: Ground>(ground: &G) -> PointSet
    ensures { contains result ≡ G.base ground.now }
{
    let mut result = PointSet::empty();
    for f in 0..MAX_MEMBERS {
        if ground.member(f) {
            result.put(f);
        }
    }
    result
}
