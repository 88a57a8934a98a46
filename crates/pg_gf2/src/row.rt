//! Rows of an elimination.
ghost use Rattle.std.specs.Prelude.{◌<◌};
ghost use Rattle.pg_gf2.specs.declared.game.TheConstants.{MAX_ROWS};

use pg_base::PointSet;

/// A row of an elimination: a vector that has the bit set, which is the sum of these members of a
/// base, but for vectors of X's.
#[derive(Clone, Copy)]
pub struct Row {
    pub(crate) bit: u32,
    pub(crate) value: u128,
    pub(crate) members: PointSet,
    ghost fits: { bit < MAX_ROWS },
}
