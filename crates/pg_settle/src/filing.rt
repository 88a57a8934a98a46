//! The file of a certificate that was brought and judged.
ghost use Rattle.std.specs.Prelude.{IfOk};
ghost use Rattle.pg_settle.specs.Prelude.{IsValid, IsWithinLimits};
ghost use Rattle.pg_settle.specs.Findings.{IsKeptAs};

use crate::differing::claims_differ;
use pg_base::Memory;
use pg_cert::{Cert, print_cert};
use pg_game::Game;
use pg_results::print_solution;
use std::alloc::Global;

/// Returns the text of a certificate; with images, that of the folded one, unless two nodes of one
/// claim have the same position, no turn or reflection of the board but the one of number 0 fits
/// the game, or the folded one has too many nodes unfolded.
///
/// # Errors
///
/// `Memory` if memory runs out.
pub(crate) fn file_of(
    alloc: Global,
    game: &Game,
    certificate: &Cert,
    images: bool,
) -> Result<Vec<u8>, Memory>
    requires valid { IsValid game.now certificate.now }
    requires limits { IsWithinLimits certificate.now }
    ensures { IfOk result (λ text. IsKeptAs images game.now certificate.now text.items) }
{
    if images && claims_differ(alloc, certificate)? {
        return print_solution(alloc, game, certificate, true);
    }
    print_cert(alloc, certificate)
}
