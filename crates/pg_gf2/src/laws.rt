//! Laws of games on vectors. Each function is empty: what it promises is a law of the definitions
//! alone.
ghost use Rattle.std.specs.Prelude.{◌≡◌, ℕ, Some, slice_get};
ghost use Rattle.pg_gf2.specs.Prelude.{FinSet, nat_cmp, Win, Side, X, Y, Cert, Claim, ForcesBy};
ghost use Rattle.pg_gf2.specs.Prelude.{named, Class};
ghost use Rattle.pg_gf2.specs.Check.{IsVecValid, IsFirstVecFault};
ghost use Rattle.pg_gf2.specs.Classes.{vector_rules, at_turn, TreesAt, CutsAt, VectorSetsHold};
ghost use Rattle.pg_gf2.specs.Classes.{vector_class};
ghost use Rattle.pg_gf2.specs.declared.flaw.VecFlaw.{VecFlaw};
ghost use Rattle.pg_gf2.specs.declared.game.VecGame.{VecGame};

/// Trees of vectors are a win for X (Lehman, A solution of the Shannon switching game, 1964).
pub fn vector_trees_force()
    ensures { (g : VecGame) → (turn : Side) → (a1 a2 : FinSet nat_cmp) → TreesAt g turn a1 a2
        → ForcesBy (vector_rules g) (at_turn g turn) X Win }
{}

/// Cuts of vectors are a win for Y: the dual.
pub fn vector_cuts_force()
    ensures { (g : VecGame) → (turn : Side) → (d1 d2 : FinSet nat_cmp) → CutsAt g turn d1 d2
        → ForcesBy (vector_rules g) (at_turn g turn) Y Win }
{}

/// The sets of a class make it the class by the values of the game.
pub fn vector_sets_give_the_class()
    ensures { (g : VecGame) → (c : Class) → VectorSetsHold g c → vector_class g ≡ Some (named c) }
{}

/// Every claim of a valid certificate is forced: its side forces a win from the game's marks with
/// the claim's turn.
pub fn valid_vector_claims_are_forced()
    ensures { (g : VecGame) → (c : Cert) → IsVecValid g c
        → (i : ℕ) → (claim : Claim) → slice_get c.claims i ≡ Some claim
        → ForcesBy (vector_rules g) (at_turn g claim.turn) claim.side Win }
{}

/// A valid certificate has no first fault, and any other has one at most: so nothing but want of
/// memory is left open in what `vec_check` answers.
pub fn vector_faults_are_told()
    ensures none { (g : VecGame) → (c : Cert) → IsVecValid g c
        → (claim : ℕ) → (node : ℕ) → (why : VecFlaw) → IsFirstVecFault g c claim node why
        → ⊥ }
    ensures one { (g : VecGame) → (c : Cert) → (i : ℕ) → (k : ℕ) → (w : VecFlaw) → (claim : ℕ)
        → (node : ℕ) → (why : VecFlaw) → IsFirstVecFault g c i k w
        → IsFirstVecFault g c claim node why
        → (i ≡ claim) × (k ≡ node) × (w ≡ why) }
{}
