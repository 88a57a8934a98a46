//! The file of a certificate that shows a result.
ghost use Rattle.std.specs.Prelude.{IfOk, Some};
ghost use Rattle.pg_results.specs.Prelude.{IsWithinLimits, IsValid, DifferInPosition};
ghost use Rattle.pg_results.specs.Results.{IsFileOf};

use pg_base::Memory;
use pg_cert::{Cert, print_cert};
use pg_fold::fold_by_symmetry;
use pg_fold::laws::folded_certificates_stay_valid;
use pg_game::Game;
use pg_image::print_image;
use std::alloc::Global;

/// Returns the text of the certificate; with images, that of the folded one, unless no turn or
/// reflection of the board but the one of number 0 fits the game, or a claim of the folded one, or
/// all together, have too many nodes unfolded.
///
/// # Errors
///
/// `Memory` if memory runs out.
pub fn print_solution(
    alloc: Global,
    game: &Game,
    certificate: &Cert,
    images: bool,
) -> Result<Vec<u8>, Memory>
    requires valid { IsValid game.now certificate.now }
    requires limits { IsWithinLimits certificate.now }
    requires differ { DifferInPosition certificate.now }
    ensures { IfOk result (λ text. IsFileOf images game.now certificate.now text.items) }
{
    if !images {
        return print_cert(alloc, certificate);
    }
    folded_certificates_stay_valid();
    match fold_by_symmetry(alloc, game, certificate)? {
        Some(folded) => print_image(alloc, &folded),
        None => print_cert(alloc, certificate),
    }
}
