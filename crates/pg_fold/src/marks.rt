//! The marks of a position as lists.
ghost use Rattle.std.specs.Prelude.{◌≡◌, IfOk};
ghost use Rattle.pg_base.specs.Points.{members};

use pg_base::{Members, Memory, PointSet};
use pg_game::Position;
use std::alloc::{AllocError, Global};

/// The points of each side, ascending.
#[derive(Debug, Drop)]
pub(crate) struct Marks {
    pub(crate) x: Vec<u16>,
    pub(crate) y: Vec<u16>,
}

/// The members of a set, ascending.
fn members_of(alloc: Global, set: &PointSet) -> Result<Vec<u16>, AllocError>
    ensures { IfOk result (λ list. list.items ≡ members set.now) }
{
    Members::of(set).collect(alloc)
}

/// The marks of a position.
pub(crate) fn marks_of(alloc: Global, p: &Position) -> Result<Marks, Memory>
    ensures x { IfOk result (λ marks. marks.x.items ≡ members p.now.x) }
    ensures y { IfOk result (λ marks. marks.y.items ≡ members p.now.y) }
{
    Ok(Marks {
        x: members_of(alloc, &p.x)?,
        y: members_of(alloc, &p.y)?,
    })
}
