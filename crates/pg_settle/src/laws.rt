//! What a certificate that is accepted says. The function is empty: what it promises is a law of
//! the definitions.
ghost use Rattle.std.specs.Prelude.{◌≡◌};
ghost use Rattle.pg_settle.specs.Prelude.{Cert, Game, IsWithinLimits, Score, start, value};
ghost use Rattle.pg_settle.specs.Findings.{ShowsScore};

use pg_check::valid_claims_are_forced;

/// A score that a certificate shows is the value of the game's position, whatever brought the
/// certificate.
pub fn shown_scores_are_values()
    ensures { (g : Game) → (score : Score) → (c : Cert) → IsWithinLimits c
        → ShowsScore g score c
        → value g (start g) ≡ score }
{
    valid_claims_are_forced();
}
