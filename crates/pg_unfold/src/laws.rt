//! Laws of unfolded claims. Each function is empty: what it promises is a law of the definitions
//! alone.
ghost use Rattle.std.specs.Prelude.{◌≡◌, ◌-◌, ℕ, List, length, slice_get, Some};
ghost use Rattle.pg_unfold.specs.Prelude.{position_of, Claim, Node, Game, IsImageClaim, ImageCert};
ghost use Rattle.pg_unfold.specs.Prelude.{ImageClaim, Plain};
ghost use Rattle.pg_unfold.specs.Copies.{Copy, IsMet};
ghost use Rattle.pg_unfold.specs.Flaws.{IsFaultless, IsFirstFault, IsSoundClaim};
ghost use Rattle.pg_unfold.specs.Unfolded.{HasImage, HasRootAt, IsUnfolded, IsUnfoldedCert};
ghost use Rattle.pg_unfold.specs.declared.unfolded.Unfolded.{Unfolded};

/// Where a plain node is met under a map, the unfolded claim has a node that came from it, and
/// whose position is the image of its position.
pub fn copies_have_images()
    ensures { (g : Game) → (c : ImageClaim) → (claim : Claim) → (origins : List ℕ)
        → IsUnfolded g c claim origins
        → (copy : Copy) → (node : Node) → IsMet c.nodes copy
        → slice_get c.nodes copy.node ≡ Some (Plain node)
        → HasImage g claim origins copy node }
{}

/// Where the last node of a sound claim is plain, the last node of the unfolded claim has its
/// position.
pub fn roots_stay()
    ensures { (g : Game) → (c : ImageClaim) → (claim : Claim) → (origins : List ℕ) → IsImageClaim c
        → IsSoundClaim g c
        → IsUnfolded g c claim origins
        → (root : Node) → slice_get c.nodes (length c.nodes - 1) ≡ Some (Plain root)
        → HasRootAt claim (position_of root) }
{}

/// A certificate with images has one unfolding at most: two ways to unfold it give the same plain
/// certificate, and for each node of it the same node from which it came.
pub fn unfoldings_are_one()
    ensures { (g : Game) → (c : ImageCert) → (u : Unfolded) → (v : Unfolded) →
        IsUnfoldedCert g c u → IsUnfoldedCert g c v → u ≡ v }
{}

/// A certificate without a fault has no first fault, since a claim has just one size unfolded; any
/// other has one first fault at most. So nothing but want of memory is left open in what `unfold`
/// answers.
pub fn faults_are_told()
    ensures none { (g : Game) → (c : ImageCert) → IsFaultless g c → (claim : ℕ) → (node : ℕ) →
        (why : ℕ) → IsFirstFault g c claim node why → ⊥ }
    ensures one { (g : Game) → (c : ImageCert) → (i : ℕ) → (k : ℕ) → (w : ℕ) → (claim : ℕ) →
        (node : ℕ) → (why : ℕ) → IsFirstFault g c i k w → IsFirstFault g c claim node why →
        (i ≡ claim) × (k ≡ node) × (w ≡ why) }
{}
