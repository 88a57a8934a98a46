//! The rings of a board.
ghost use Rattle.std.specs.Prelude.{◌≡◌, ◌∷◌, [], length, IfOk};
ghost use Rattle.pg_board.specs.Prelude.{range_with_len};
ghost use Rattle.pg_board.specs.Shape.{IsShape};

use crate::layout::Layout;
use pg_base::Memory;
use pg_undo::Ring;
use std::alloc::Global;

/// The rings of a board.
#[derive(Debug, Drop)]
pub(crate) struct Rings {
    /// The lines without a point of X.
    pub(crate) live_x: Ring,
    /// The lines without a point of Y.
    pub(crate) live_y: Ring,
    /// The free points.
    pub(crate) free: Ring,
}

/// The rings of the empty position: of all lines, for either side, and of all points.
pub(crate) fn whole_rings(alloc: Global, layout: &Layout) -> Result<Rings, Memory>
    ensures shape { IfOk result (λ _. IsShape layout.now) }
    ensures live_x { IfOk result
        (λ rings. rings.live_x ≡ range_with_len 0 (length layout.now.lines) ∷ []) }
    ensures live_y { IfOk result
        (λ rings. rings.live_y ≡ range_with_len 0 (length layout.now.lines) ∷ []) }
    ensures free { IfOk result (λ rings. rings.free ≡ range_with_len 0 layout.now.points ∷ []) }
{
    let lines = layout.lines();
    let live_x = Ring::new(alloc, lines)?;
    let live_y = Ring::new(alloc, lines)?;
    let free = Ring::new(alloc, u32::from(layout.points()))?;
    Ok(Rings {
        live_x,
        live_y,
        free,
    })
}
