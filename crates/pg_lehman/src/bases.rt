//! The class of an element of a ground, by two bases that share few elements.
ghost use Rattle.std.specs.Prelude.{◌≡◌, ◌<◌, true, false};
ghost use Rattle.pg_lehman.specs.Prelude.{contains, both, IsReached, IsSettled, LeadsFrom};
ghost use Rattle.pg_lehman.specs.Taken.{AreDistant, IsInOne, IsTaken, IsPlaced, ReachesCommon};
ghost use Rattle.pg_lehman.specs.Taken.{in_neither, only};

use crate::class::Class;
use pg_base::{MAX_MEMBERS, PointSet};
use pg_exchange::{Exchange, Ground};

/// The points of both sets.
fn common_points(a: &PointSet, b: &PointSet) -> PointSet
    ensures { contains result ≡ both (contains a.now) (contains b.now) }
{
    a.without(&a.without(b))
}

/// The set of one point.
fn single(v: u16) -> PointSet
    requires { v < MAX_MEMBERS }
    ensures { contains result ≡ only v }
{
    let mut set = PointSet::empty();
    set.put(v);
    set
}

/// The class of e: Short's where e is reached from the elements in neither base, Cut's where e
/// reaches one in both, and else that of the side to move. The bases are settled then (Lehman 1964;
/// Bruno and Weinberg 1970 for matroids).
pub fn decide<G: Ground>(bases: &mut Exchange<G>, e: u16) -> Class
    requires { (G.matroid bases.old.first).elements e ≡ true }
    ensures taken { IsTaken (G.matroid bases.old.first) e result }
    ensures settled { IsSettled (G.matroid bases.old.first) (G.base bases.new.first)
        (G.base bases.new.second) }
    ensures kept { G.matroid bases.new.first ≡ G.matroid bases.old.first }
{
    bases.settle();
    let near = bases.reached();
    if near.has(e) {
        return short(bases, e);
    }
    let from_e = bases.reach(&single(e));
    if from_e.shares_none(&bases.common()) {
        first(bases, e, &near, &near.union(&from_e))
    } else {
        cut(bases, e)
    }
}

/// Short's sets, where e is reached: once e is in neither base, the members of each base that are
/// reached.
fn short<G: Ground>(bases: &mut Exchange<G>, e: u16) -> Class
    requires element { (G.matroid bases.old.first).elements e ≡ true }
    requires distant { AreDistant (G.matroid bases.old.first) (G.base bases.old.first)
        (G.base bases.old.second) }
    requires leads { LeadsFrom (G.matroid bases.old.first) (G.base bases.old.first)
        (G.base bases.old.second)
        (in_neither (G.matroid bases.old.first) (G.base bases.old.first) (G.base bases.old.second))
        e }
    ensures taken { IsTaken (G.matroid bases.old.first) e result }
    ensures settled { IsSettled (G.matroid bases.old.first) (G.base bases.new.first)
        (G.base bases.new.second) }
    ensures kept { G.matroid bases.new.first ≡ G.matroid bases.old.first }
{
    free(bases, e);
    let near = bases.reached();
    Class::Short {
        a1: common_points(&bases.base(1), &near),
        a2: common_points(&bases.base(2), &near),
    }
}

/// Brings e, which is reached, into neither base.
fn free<G: Ground>(bases: &mut Exchange<G>, e: u16)
    requires element { (G.matroid bases.old.first).elements e ≡ true }
    requires distant { AreDistant (G.matroid bases.old.first) (G.base bases.old.first)
        (G.base bases.old.second) }
    requires leads { LeadsFrom (G.matroid bases.old.first) (G.base bases.old.first)
        (G.base bases.old.second)
        (in_neither (G.matroid bases.old.first) (G.base bases.old.first) (G.base bases.old.second))
        e }
    ensures first { G.base bases.new.first e ≡ false }
    ensures second { G.base bases.new.second e ≡ false }
    ensures settled { IsSettled (G.matroid bases.old.first) (G.base bases.new.first)
        (G.base bases.new.second) }
    ensures kept { G.matroid bases.new.first ≡ G.matroid bases.old.first }
{
    let neither = bases.neither();
    if !neither.has(e) {
        let _moved = bases.shift(&neither, &single(e));
        bases.settle();
    }
}

/// Cut's sets, where e reaches an element in both bases: once e is in both, what isn't reached
/// without either base.
fn cut<G: Ground>(bases: &mut Exchange<G>, e: u16) -> Class
    requires element { (G.matroid bases.old.first).elements e ≡ true }
    requires distant { AreDistant (G.matroid bases.old.first) (G.base bases.old.first)
        (G.base bases.old.second) }
    requires placed { IsPlaced (G.base bases.old.first) (G.base bases.old.second) e }
    requires leads { ReachesCommon (G.matroid bases.old.first) (G.base bases.old.first)
        (G.base bases.old.second) e }
    ensures taken { IsTaken (G.matroid bases.old.first) e result }
    ensures settled { IsSettled (G.matroid bases.old.first) (G.base bases.new.first)
        (G.base bases.new.second) }
    ensures kept { G.matroid bases.new.first ≡ G.matroid bases.old.first }
{
    double(bases, e);
    let near = bases.reached();
    let far = bases.elements().without(&near);
    Class::Cut {
        d1: far.without(&bases.base(2)),
        d2: far.without(&bases.base(1)),
    }
}

/// Brings e, which reaches an element in both bases, into both.
fn double<G: Ground>(bases: &mut Exchange<G>, e: u16)
    requires element { (G.matroid bases.old.first).elements e ≡ true }
    requires distant { AreDistant (G.matroid bases.old.first) (G.base bases.old.first)
        (G.base bases.old.second) }
    requires placed { IsPlaced (G.base bases.old.first) (G.base bases.old.second) e }
    requires leads { ReachesCommon (G.matroid bases.old.first) (G.base bases.old.first)
        (G.base bases.old.second) e }
    ensures common { both (G.base bases.new.first) (G.base bases.new.second) e ≡ true }
    ensures settled { IsSettled (G.matroid bases.old.first) (G.base bases.new.first)
        (G.base bases.new.second) }
    ensures kept { G.matroid bases.new.first ≡ G.matroid bases.old.first }
{
    let common = bases.common();
    if !common.has(e) {
        let _moved = bases.shift(&single(e), &common);
        bases.settle();
    }
}

/// The sets of the side to move, where e is in one base alone: trees by what is reached from e too,
/// cuts by what isn't reached.
fn first<G: Ground>(bases: &Exchange<G>, e: u16, near: &PointSet, wide: &PointSet) -> Class
    requires element { (G.matroid bases.now.first).elements e ≡ true }
    requires in_one { IsInOne (G.base bases.now.first) (G.base bases.now.second) e }
    requires near { IsReached (G.matroid bases.now.first).spans (G.matroid bases.now.first).elements
        (G.base bases.now.first) (G.base bases.now.second) (contains near.now) }
    requires wide { IsReached (G.matroid bases.now.first).spans (G.matroid bases.now.first).elements
        (G.base bases.now.first) (G.base bases.now.second) (contains wide.now) }
    requires unreached { contains near.now e ≡ false }
    requires reached { contains wide.now e ≡ true }
    ensures { IsTaken (G.matroid bases.now.first) e result }
{
    let far = bases.elements().without(near);
    let (one, other) = if bases.member(1, e) {
        (bases.base(1), bases.base(2))
    } else {
        (bases.base(2), bases.base(1))
    };
    Class::First {
        a1: common_points(&one, wide),
        a2: common_points(&other, wide),
        d1: far.without(&other),
        d2: far.without(&one),
    }
}
