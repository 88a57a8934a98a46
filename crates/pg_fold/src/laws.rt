//! Laws of folded certificates. Each function is empty: what it promises is a law of the
//! definitions alone.
ghost use Rattle.std.specs.Prelude.{◌≡◌, ℕ, None, Some, slice_get};
ghost use Rattle.pg_fold.specs.Prelude.{AllZip, IsClaim, IsWithinLimits, position_of, IsValid};
ghost use Rattle.pg_fold.specs.Prelude.{IsValidClaim, Cert, Claim, Node, Game, ImageCert};
ghost use Rattle.pg_fold.specs.Prelude.{ImageClaim, Plain, board_of, image_on, image_position};
ghost use Rattle.pg_fold.specs.Prelude.{GridMap, AreSound, IsUsable, IsUnfoldedCert, Unfolded};
ghost use Rattle.pg_fold.specs.Folded.{IsFolded, IsFoldedClaim, IsSameClaim};

/// A folded valid certificate says what it said: no node of it is faulty, and what it stands for is
/// valid, with the same claims in order.
pub fn folded_certificates_stay_valid()
    ensures sound { (g : Game) → (c : Cert) → (d : ImageCert) → IsWithinLimits c
        → IsValid g c
        → IsFolded g c d
        → AreSound g d.claims }
    ensures valid { (g : Game) → (c : Cert) → (d : ImageCert) → (u : Unfolded) → IsWithinLimits c
        → IsValid g c
        → IsFolded g c d
        → IsUnfoldedCert g d u
        → IsValid g u.cert }
    ensures claims { (g : Game) → (c : Cert) → (d : ImageCert) → (u : Unfolded) → IsFolded g c d
        → IsUnfoldedCert g d u
        → AllZip IsSameClaim c.claims u.cert.claims }
{}

/// In a claim folded no two plain nodes are images of one another under a map of the board that
/// fits, so no further node could be said as an image; and in a game without a board, as each on a
/// graph, every node stays.
pub fn folding_leaves_no_images()
    ensures apart { (g : Game) → (c : Claim) → (d : ImageClaim) → IsClaim c
        → IsValidClaim g c
        → IsFoldedClaim g c d
        → (j : ℕ) → (k : ℕ) → (a : Node) → (b : Node) → (m : GridMap)
        → slice_get d.nodes j ≡ Some (Plain a)
        → slice_get d.nodes k ≡ Some (Plain b)
        → IsUsable g m
        → position_of b ≡ image_position (image_on (board_of g.field) m) (position_of a)
        → j ≡ k }
    ensures stays { (g : Game) → (c : Claim) → (d : ImageClaim) → board_of g.field ≡ None
        → IsFoldedClaim g c d
        → (k : ℕ) → (n : Node) → slice_get c.nodes k ≡ Some n
        → slice_get d.nodes k ≡ Some (Plain n) }
{}
