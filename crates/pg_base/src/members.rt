//! The members of a set of points, one after the other.
ghost use Rattle.std.specs.Prelude.{◌≡◌, ◌<◌, ◌+◌, [], ◌∷◌, IfSome, IfNone};
ghost use Rattle.std.specs.Iterator.{YieldsFirst, item_count};
ghost use Rattle.pg_base.specs.Points.{members, members_from};
ghost use Rattle.pg_base.specs.declared.limits.TheConstants.{MAX_MEMBERS};

use crate::point_set::PointSet;
use std::marker::Model;

/// The members of a set, in ascending order.
///
/// It is an iterator over them, which goes from member to member.
#[derive(Drop)]
pub struct Members<'a> {
    set: &'a PointSet,
    // The members from here on are left.
    next: u16,
}

/// The members that are left, in ascending order.
impl<'a> Model for Members<'a> {
    ghost use Rattle.std.specs.Prelude.{List, ℕ};

    ghost Value = { List ℕ };

    ghost use Rattle.pg_base.specs.Points.{members_from};

    ghost view = { λ a. members_from a.set.now a.next };
}

impl<'a> Members<'a> {
    /// The members of a set.
    pub fn of(set: &'a PointSet) -> Members<'a>
        ensures { result ≡ members set.now }
    {
        Members { set, next: 0 }
    }
}

impl<'a> Iterator for Members<'a> {
    type Item = u16;

    ghost next_gives = { YieldsFirst (λ ms. ms) };

    ghost remaining = { item_count (λ ms. ms) };

    fn next(&mut self) -> Option<u16> {
        let v = first_from(self.set, self.next)?;
        self.next = v + 1;
        Some(v)
    }
}

/// The first of the members from a number on.
#[tactic(auto, using(crate::proofs::Onward::least_first, crate::proofs::Onward::none_from))]
fn first_from(set: &PointSet, next: u16) -> Option<u16>
    ensures first { IfSome result
        (λ v. members_from set.now next ≡ v ∷ members_from set.now (v + 1)) }
    ensures range { IfSome result (λ v. v < MAX_MEMBERS) }
    ensures none { IfNone result (members_from set.now next ≡ []) }
{
    set.first_from(next)
}
