//! Laws of connectivity games. Each function is empty: what it promises is a law of the definitions
//! alone.
ghost use Rattle.std.specs.Prelude.{◌≡◌, ℕ, Some};
ghost use Rattle.pg_span.specs.Prelude.{Win, ForcesBy};
ghost use Rattle.pg_span.specs.Game.{marks_at, span_class, span_rules_of};
ghost use Rattle.pg_span.specs.Solved.{AreDueClaims, named};
ghost use Rattle.pg_span.specs.Valid.{IsFirstFlaw, IsSpanClaimValid, IsSpanValid};
ghost use Rattle.pg_span.specs.declared.cert.SpanCert.{SpanCert};
ghost use Rattle.pg_span.specs.declared.cert.SpanClaim.{SpanClaim};
ghost use Rattle.pg_span.specs.declared.flaw.SpanFlaw.{SpanFlaw};
ghost use Rattle.pg_span.specs.declared.game.SpanGame.{SpanGame};
ghost use Rattle.pg_span.specs.declared.solved.SpanClass.{SpanClass};

/// The side of a valid claim wins from the game's marks with the claim's turn (Lehman 1964 for
/// trees; Nash-Williams and Tutte 1961 for parts).
pub fn valid_claims_force()
    ensures { (g : SpanGame) → (claim : SpanClaim) → IsSpanClaimValid g claim
        → ForcesBy (span_rules_of g) (marks_at g claim.turn) claim.side Win }
{}

/// A valid certificate has no first flaw, and any other one at most.
pub fn faults_are_told()
    ensures valid { (g : SpanGame) → (cert : SpanCert) → (claim : ℕ) → (why : SpanFlaw)
        → IsSpanValid g cert
        → IsFirstFlaw g cert claim why
        → ⊥ }
    ensures one { (g : SpanGame) → (cert : SpanCert) → (claim other : ℕ) → (why how : SpanFlaw)
        → IsFirstFlaw g cert claim why
        → IsFirstFlaw g cert other how
        → (claim ≡ other) × (why ≡ how) }
{}

/// Valid claims of the sides that win with X and with Y to move tell the class.
pub fn claims_tell_the_class()
    ensures { (g : SpanGame) → (class : SpanClass) → (cert : SpanCert)
        → AreDueClaims class cert.claims
        → IsSpanValid g cert
        → span_class g ≡ Some (named class) }
{}
