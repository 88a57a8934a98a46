//! Two bases, exchanged along chains of links.
//!
//! An element that isn't in a base links to the members of its circuit. A chain is a row of links
//! by either base, each from where the one before it ended; the empty row leads from every element
//! to itself.
ghost use Rattle.std.specs.Prelude.{◌≡◌, ◌<◌, ◌↔◌, ◌⊎◌, ◌==◌, ℕ, true, false, IfSome, IfNone};
ghost use Rattle.std.specs.Prelude.{length};
ghost use Rattle.pg_exchange.specs.Prelude.{contains, IsWithin, both, outside, IsReached, circuit};
ghost use Rattle.pg_exchange.specs.Prelude.{swapped};
ghost use Rattle.pg_exchange.specs.Chain.{base_of, KeepsMatroid, KeepsBases, LeadsFrom, SomeTree};
ghost use Rattle.pg_exchange.specs.Chain.{IsLeast, IsSettled, IsMoved, IsShift, NoShift, IsNearest};
ghost use Rattle.pg_exchange.specs.Chain.{up_of, second_of};

use crate::ground::Ground;
use crate::search::{Parent, explore, first_shared, follow, members, shared, take_next};
use pg_base::{MAX_MEMBERS, PointSet};

/// Two bases of one ground.
#[derive(Drop)]
pub struct Exchange<G: Ground> {
    first: G,
    second: G,
    ghost same: { G.matroid first ≡ G.matroid second },
}

impl<G: Ground> Exchange<G> {
    /// These two bases.
    pub fn open(first: G, second: G) -> Exchange<G>
        requires { G.matroid first ≡ G.matroid second }
        ensures { (result.first ≡ first) × (result.second ≡ second) }
    {
        Exchange { first, second }
    }

    /// Whether f is in the base with this number, 1 or 2; f may be any number.
    pub fn member(&self, i: u8, f: u16) -> bool
        requires { (i ≡ 1) ⊎ (i ≡ 2) }
        ensures { result ≡ base_of i (G.base self.now.first) (G.base self.now.second) f }
    {
        if i == 1 {
            self.first.member(f)
        } else {
            self.second.member(f)
        }
    }

    /// The members of the base with this number without which the rest of it doesn't span f.
    pub fn circuit(&mut self, i: u8, f: u16) -> PointSet
        requires which { (i ≡ 1) ⊎ (i ≡ 2) }
        requires element { (G.matroid self.old.first).elements f ≡ true }
        requires outside { base_of i (G.base self.old.first) (G.base self.old.second) f ≡ false }
        ensures value { contains result ≡ circuit (G.matroid self.old.first).spans
            (base_of i (G.base self.old.first) (G.base self.old.second)) f }
        ensures kept { KeepsMatroid (G.matroid self.old.first) (G.matroid self.old.second)
            (G.matroid self.new.first) (G.matroid self.new.second) }
        ensures kept_bases { KeepsBases (G.base self.old.first) (G.base self.old.second)
            (G.base self.new.first) (G.base self.new.second) }
    {
        if i == 1 {
            self.first.circuit(f)
        } else {
            self.second.circuit(f)
        }
    }

    /// Takes `out` out of the base with this number and puts `into` into it.
    pub fn swap(&mut self, i: u8, out: u16, into: u16)
        requires which { (i ≡ 1) ⊎ (i ≡ 2) }
        requires element { (G.matroid self.old.first).elements into ≡ true }
        requires outside { base_of i (G.base self.old.first) (G.base self.old.second) into ≡ false }
        requires exchanges { circuit (G.matroid self.old.first).spans
            (base_of i (G.base self.old.first) (G.base self.old.second)) into out ≡ true }
        ensures exchanged { base_of i (G.base self.new.first) (G.base self.new.second)
            ≡ swapped (base_of i (G.base self.old.first) (G.base self.old.second)) out into }
        ensures other { base_of i (G.base self.new.second) (G.base self.new.first)
            ≡ base_of i (G.base self.old.second) (G.base self.old.first) }
        ensures kept { KeepsMatroid (G.matroid self.old.first) (G.matroid self.old.second)
            (G.matroid self.new.first) (G.matroid self.new.second) }
    {
        if i == 1 {
            self.first.swap(out, into);
        } else {
            self.second.swap(out, into);
        }
    }

    /// The elements.
    pub fn elements(&self) -> PointSet
        ensures { contains result ≡ (G.matroid self.now.first).elements }
    {
        self.first.elements()
    }

    /// The members of the base with this number.
    pub fn base(&self, i: u8) -> PointSet
        requires { (i ≡ 1) ⊎ (i ≡ 2) }
        ensures { contains result ≡ base_of i (G.base self.now.first) (G.base self.now.second) }
    {
        if i == 1 {
            members(&self.first)
        } else {
            members(&self.second)
        }
    }

    /// The elements to which a chain of links leads from a member of `from`, the members included.
    pub fn reach(&mut self, from: &PointSet) -> PointSet
        requires { IsWithin (contains from.now) (G.matroid self.old.first).elements }
        ensures value { (y : ℕ) → (contains result y ≡ true)
            ↔ LeadsFrom (G.matroid self.old.first) (G.base self.old.first) (G.base self.old.second)
            (contains from.now) y }
        ensures kept { KeepsMatroid (G.matroid self.old.first) (G.matroid self.old.second)
            (G.matroid self.new.first) (G.matroid self.new.second) }
        ensures kept_bases { KeepsBases (G.base self.old.first) (G.base self.old.second)
            (G.base self.new.first) (G.base self.new.second) }
    {
        let mut seen = *from;
        let mut todo = *from;
        while let Some(f) = todo.first_from(0) {
            todo.take(f);
            follow(&mut self.first, f, &mut seen, &mut todo);
            follow(&mut self.second, f, &mut seen, &mut todo);
        }
        seen
    }

    /// Swaps along the chain that ends in y, from its end, and gives its beginning.
    fn exchange(&mut self, from: &PointSet, parents: &[Parent], y: u16) -> u16
        requires tree { SomeTree (G.matroid self.old.first) (G.base self.old.first)
            (G.base self.old.second) (contains from.now) (up_of parents.now)
            (second_of parents.now) y }
        requires parents { length parents.now ≡ MAX_MEMBERS }
        ensures begins { contains from.now result ≡ true }
        ensures kept { KeepsMatroid (G.matroid self.old.first) (G.matroid self.old.second)
            (G.matroid self.new.first) (G.matroid self.new.second) }
        ensures nearest { IsNearest (G.matroid self.old.first) (G.base self.old.first)
            (G.base self.old.second) (contains from.now) result y }
        ensures members { IsMoved (G.base self.old.first) (G.base self.old.second)
            (G.base self.new.first) (G.base self.new.second) result y }
    {
        let mut at = y;
        for _i in 0..MAX_MEMBERS {
            if from.has(at) {
                return at;
            }
            let parent = parents[at as usize];
            if parent.second {
                self.second.swap(at, parent.up);
            } else {
                self.first.swap(at, parent.up);
            }
            at = parent.up;
        }
        at
    }

    /// Where a chain leads from a member of `from` to a member of `to`, puts the beginning x of a
    /// shortest one into a base and takes its end y out of one, by a swap for each link from the
    /// end on, and gives (x, y). None comes exactly where no chain leads there, and then nothing
    /// changes.
    ///
    /// A shortest chain has no shortcuts, so each swap leaves a base (Edmonds, Minimum partition of
    /// a matroid into independent subsets, 1965).
    pub fn shift(&mut self, from: &PointSet, to: &PointSet) -> Option<(u16, u16)>
        requires { IsWithin (contains from.now) (G.matroid self.old.first).elements }
        ensures kept { KeepsMatroid (G.matroid self.old.first) (G.matroid self.old.second)
            (G.matroid self.new.first) (G.matroid self.new.second) }
        ensures some { IfSome result
            (λ p. IsShift (G.matroid self.old.first) (G.base self.old.first)
            (G.base self.old.second) (G.base self.new.first) (G.base self.new.second)
            (contains from.now) (contains to.now) p.0 p.1) }
        ensures none { IfNone result
            (NoShift (G.matroid self.old.first) (G.base self.old.first) (G.base self.old.second)
            (G.base self.new.first) (G.base self.new.second)
            (contains from.now) (contains to.now)) }
    {
        let nowhere = Parent {
            up: 0,
            second: false,
        };
        let mut parents = [nowhere; MAX_MEMBERS as usize];
        let mut seen = *from;
        let mut level = *from;
        let mut later = PointSet::empty();
        while let Some(f) = take_next(&mut level, &mut later) {
            if let Some(y) = first_shared(&seen, to) {
                let x = self.exchange(from, &parents, y);
                return Some((x, y));
            }
            explore(
                &mut self.first,
                f,
                false,
                &mut seen,
                &mut later,
                &mut parents,
            );
            explore(
                &mut self.second,
                f,
                true,
                &mut seen,
                &mut later,
                &mut parents,
            );
        }
        None
    }

    /// The elements in neither base.
    pub fn neither(&self) -> PointSet
        ensures { contains result
            ≡ outside (outside (G.matroid self.now.first).elements (G.base self.now.first))
            (G.base self.now.second) }
    {
        let others = self.first.elements().without(&members(&self.first));
        others.without(&members(&self.second))
    }

    /// The members of both bases.
    pub fn common(&self) -> PointSet
        ensures { contains result ≡ both (G.base self.now.first) (G.base self.now.second) }
    {
        shared(&members(&self.first), &members(&self.second))
    }

    /// The elements to which a chain of links leads from an element in neither base. Where no chain
    /// leads from there to an element in both, as `settle` leaves the bases, the members of either
    /// base among them span every one of them (Lehman 1964; Bruno and Weinberg, A constructive
    /// graph-theoretic solution of the Shannon switching game, 1970).
    pub fn reached(&mut self) -> PointSet
        ensures value { (y : ℕ) → (contains result y ≡ true)
            ↔ LeadsFrom (G.matroid self.old.first) (G.base self.old.first) (G.base self.old.second)
            (outside (outside (G.matroid self.old.first).elements (G.base self.old.first))
            (G.base self.old.second)) y }
        ensures reached { IsSettled (G.matroid self.old.first) (G.base self.old.first)
            (G.base self.old.second)
            → IsReached (G.matroid self.old.first).spans (G.matroid self.old.first).elements
            (G.base self.old.first) (G.base self.old.second) (contains result) }
        ensures kept { KeepsMatroid (G.matroid self.old.first) (G.matroid self.old.second)
            (G.matroid self.new.first) (G.matroid self.new.second) }
        ensures kept_bases { KeepsBases (G.base self.old.first) (G.base self.old.second)
            (G.base self.new.first) (G.base self.new.second) }
    {
        let neither = self.neither();
        self.reach(&neither)
    }

    /// Makes the common elements as few as those of any two bases: no chain leads from an element
    /// in neither base to one in both (Edmonds 1965; Lehman 1964). Bases that share so few stay as
    /// they are.
    pub fn settle(&mut self)
        ensures least { IsLeast (G.matroid self.old.first) (G.base self.new.first)
            (G.base self.new.second) }
        ensures none { IsSettled (G.matroid self.old.first) (G.base self.new.first)
            (G.base self.new.second) }
        ensures idle { IsLeast (G.matroid self.old.first) (G.base self.old.first)
            (G.base self.old.second)
            → KeepsBases (G.base self.old.first) (G.base self.old.second)
            (G.base self.new.first) (G.base self.new.second) }
        ensures kept { KeepsMatroid (G.matroid self.old.first) (G.matroid self.old.second)
            (G.matroid self.new.first) (G.matroid self.new.second) }
    {
        let mut neither = self.neither();
        let mut common = self.common();
        while let Some((x, y)) = self.shift(&neither, &common) {
            neither.take(x);
            common.take(y);
        }
    }
}
