//! Certificates folded where that is worth it.
ghost use Rattle.std.specs.Prelude.{IfOk, IfSome};
ghost use Rattle.pg_fold.specs.Prelude.{IsWithinLimits, IsValid, IsImageWithinLimits};
ghost use Rattle.pg_fold.specs.Folded.{DifferInPosition};
ghost use Rattle.pg_fold.specs.Symmetry.{IsFoldedWell};

use crate::folding::fold;
use pg_base::Memory;
use pg_cert::Cert;
use pg_game::Game;
use pg_image::ImageCert;
use pg_maps::is_symmetric;
use pg_unfold::has_room;
use std::alloc::Global;

/// The certificate folded, where that is worth it: where a turn or reflection of the board whose
/// number isn't 0 fits the game, and each claim of the folded certificate, and all together, have
/// few enough nodes unfolded. None exactly otherwise, as for each game without a board. On a board
/// of one row or one column a reflection leaves every point, and counts.
///
/// # Errors
///
/// `Memory` where no memory is found.
pub fn fold_by_symmetry(alloc: Global, g: &Game, c: &Cert) -> Result<Option<ImageCert>, Memory>
    requires valid { IsValid g.now c.now }
    requires limits { IsWithinLimits c.now }
    requires differ { DifferInPosition c.now }
    ensures folded { IfOk result (IsFoldedWell g.now c.now) }
    ensures limits { IfOk result (λ d. IfSome d IsImageWithinLimits) }
{
    if !is_symmetric(alloc, g)? {
        return Ok(None);
    }
    let folded = fold(alloc, g, c)?;
    if !has_room(alloc, &folded)? {
        return Ok(None);
    }
    Ok(Some(folded))
}
