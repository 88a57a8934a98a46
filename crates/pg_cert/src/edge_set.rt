//! Sets of edges.
ghost use Rattle.std.specs.Prelude.{◌≡◌, IfOk};

use pg_base::{Memory, PointSet};
use std::alloc::Global;
use std::marker::Model;

/// A set of edges. It lies in a place of its own, so that bodies that name none stay small.
#[derive(Debug, Drop)]
pub struct EdgeSet {
    members: Box<PointSet>,
}

/// The set of its edges.
impl Model for EdgeSet {
    ghost use Rattle.std.specs.FinSet as set;
    ghost use Rattle.pg_cert.specs.Prelude.{nat_cmp, coded_ℕ};

    ghost Value = { set.FinSet nat_cmp };

    ghost coded = { set.code coded_ℕ };

    ghost view = { λ a. a.members.value };
}

impl EdgeSet {
    /// The set of these edges.
    ///
    /// `Memory` means that memory was refused.
    pub fn new(alloc: Global, members: PointSet) -> Result<EdgeSet, Memory>
        ensures { IfOk result (λ edges. edges ≡ members) }
    {
        Ok(EdgeSet {
            members: Box::new(alloc, members)?,
        })
    }

    /// The edges.
    pub fn as_set(&self) -> &PointSet
        ensures { result.now ≡ self.now }
    {
        &self.members
    }
}
