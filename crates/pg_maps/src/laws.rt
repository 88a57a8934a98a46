//! Laws of maps. Each function is empty: what it promises is a law of the definitions alone. Where
//! a law speaks of an automorphism it holds of each map of a board that fits, by
//! `fitting_maps_are_automorphisms`.
ghost use Rattle.std.specs.Prelude.{◌≡◌, ℕ, ◌*◌, ◌<◌, List, map, Some};
ghost use Rattle.pg_maps.specs.Prelude.{AllPairs, IsPermutation, Goal, Grid, Pair, Side};
ghost use Rattle.pg_maps.specs.Prelude.{AvoiderHolds, point_count, free_points, is_over, outcome};
ghost use Rattle.pg_maps.specs.Prelude.{after, IsPosition, PairsHold, PotentialHolds, IsThreatLine};
ghost use Rattle.pg_maps.specs.Prelude.{value, Forces, Game, Position, IsNoWorse};
ghost use Rattle.pg_maps.specs.GridMaps.{IsMapOf, numbered, number_of, image_of, followed_by};
ghost use Rattle.pg_maps.specs.GridMaps.{reverse_of, identity};
ghost use Rattle.pg_maps.specs.Images.{AreInverse, IsAutomorphism, Fits, IsImage, board_of};
ghost use Rattle.pg_maps.specs.Images.{image_on, image_pair, image_position};
ghost use Rattle.pg_maps.specs.declared.grid_map.GridMap.{GridMap};

/// The numbers from 0 to 7 name eight different maps, and all maps.
pub fn maps_have_numbers()
    ensures number { (n : ℕ) → n < 8 → number_of (numbered n) ≡ n }
    ensures map { (m : GridMap) → numbered (number_of m) ≡ m }
    ensures few { (m : GridMap) → number_of m < 8 }
{}

/// The maps of a board are a group: one after the other is a map of the board, it doesn't matter
/// which two of three are put together first, and each map is undone by one.
pub fn maps_are_a_group()
    ensures followed { (grid : Grid) → (a : GridMap) → (b : GridMap) → IsMapOf grid a
        → IsMapOf grid b
        → IsMapOf grid (followed_by a b) }
    ensures associative { (a : GridMap) → (b : GridMap) → (c : GridMap)
        → followed_by (followed_by a b) c ≡ followed_by a (followed_by b c) }
    ensures neutral { (a : GridMap) → (followed_by identity a ≡ a) × (followed_by a identity ≡ a) }
    ensures reverse { (grid : Grid) → (m : GridMap) → IsMapOf grid m → IsMapOf grid (reverse_of m) }
    ensures undone { (m : GridMap)
        → (followed_by m (reverse_of m) ≡ identity) × (followed_by (reverse_of m) m ≡ identity) }
{}

/// The group acts on the points: a map that follows another takes the points to which that one took
/// them, map 0 leaves every point, and the reverse of a map undoes it on the points of the board.
pub fn maps_act_on_points()
    ensures images { (grid : Grid) → (a : GridMap) → (b : GridMap) → (v : ℕ) → IsMapOf grid a
        → IsMapOf grid b
        → image_of (followed_by a b) grid v ≡ image_of b grid (image_of a grid v) }
    ensures stays { (grid : Grid) → (v : ℕ) → image_of identity grid v ≡ v }
    ensures inverse { (grid : Grid) → (m : GridMap) → IsMapOf grid m
        → AreInverse (grid.width * grid.height) (image_of m grid) (image_of (reverse_of m) grid) }
{}

/// The maps that fit a game are a group.
pub fn fitting_maps_are_a_group()
    ensures identity { (g : Game) → Fits g identity }
    ensures followed { (g : Game) → (a : GridMap) → (b : GridMap) → Fits g a
        → Fits g b
        → Fits g (followed_by a b) }
    ensures reverse { (g : Game) → (m : GridMap) → Fits g m → Fits g (reverse_of m) }
{}

/// A map that fits a game takes its points onto its points, as its reverse undoes, and its lines
/// onto its lines.
pub fn fitting_maps_are_automorphisms()
    ensures { (g : Game) → (m : GridMap) → Fits g m
        → IsAutomorphism g (image_on (board_of g.field) m)
        (image_on (board_of g.field) (reverse_of m)) }
{}

/// The image of a position of the game is a position of the game, and its only image; where a point
/// is taken in both the next positions are images too; an image of an image is one by the one map
/// and then the other, and is undone as the map is; and where every point stays so does the
/// position.
pub fn images_are_positions()
    ensures image { (g : Game) → (f : ℕ → ℕ) → (back : ℕ → ℕ) → (p : Position)
        → IsAutomorphism g f back
        → IsPosition g p
        → IsImage g f p (image_position f p) × IsPosition g (image_position f p) }
    ensures unique { (g : Game) → (f : ℕ → ℕ) → (back : ℕ → ℕ) → (p : Position) → (q : Position)
        → (r : Position) → IsAutomorphism g f back
        → IsImage g f p q
        → IsImage g f p r
        → IsPosition g q
        → IsPosition g r
        → q ≡ r }
    ensures after { (g : Game) → (f : ℕ → ℕ) → (back : ℕ → ℕ) → (p : Position) → (q : Position)
        → (v : ℕ) → IsAutomorphism g f back
        → IsImage g f p q
        → v < point_count g
        → IsImage g f (after g p v) (after g q (f v)) }
    ensures further { (g : Game) → (f : ℕ → ℕ) → (back : ℕ → ℕ) → (h : ℕ → ℕ) → (p : Position)
        → (q : Position) → (r : Position) → IsAutomorphism g f back
        → IsImage g f p q
        → IsImage g h q r
        → IsImage g (λ v. h (f v)) p r }
    ensures undone { (g : Game) → (f : ℕ → ℕ) → (back : ℕ → ℕ) → (p : Position) → (q : Position)
        → IsAutomorphism g f back
        → IsImage g f p q
        → IsImage g back q p }
    ensures stays { (g : Game) → (f : ℕ → ℕ) → (back : ℕ → ℕ) → (p : Position)
        → IsAutomorphism g f back
        → ((v : ℕ) → f v ≡ v)
        → IsPosition g p
        → image_position f p ≡ p }
{}

/// An automorphism keeps whether the game is over, its outcome, its value, and what each side
/// forces: in games of all kinds, at any bias.
pub fn automorphisms_keep_values()
    ensures over { (g : Game) → (f : ℕ → ℕ) → (back : ℕ → ℕ) → (p : Position) → (q : Position)
        → IsAutomorphism g f back
        → IsImage g f p q
        → is_over g q ≡ is_over g p }
    ensures outcome { (g : Game) → (f : ℕ → ℕ) → (back : ℕ → ℕ) → (p : Position) → (q : Position)
        → IsAutomorphism g f back
        → IsImage g f p q
        → outcome g q ≡ outcome g p }
    ensures value { (g : Game) → (f : ℕ → ℕ) → (back : ℕ → ℕ) → (p : Position) → (q : Position)
        → IsAutomorphism g f back
        → IsImage g f p q
        → value g q ≡ value g p }
    ensures forces { (g : Game) → (f : ℕ → ℕ) → (back : ℕ → ℕ) → (p : Position) → (q : Position)
        → (side : Side) → (goal : Goal) → IsAutomorphism g f back
        → IsImage g f p q
        → Forces g p side goal
        → Forces g q side goal }
{}

/// So do the maps of a board that fit, and the position's image is the one that `image_position`
/// gives.
pub fn fitting_maps_keep_values()
    ensures value { (g : Game) → (grid : Grid) → (m : GridMap) → (p : Position)
        → board_of g.field ≡ Some grid
        → Fits g m
        → IsPosition g p
        → value g (image_position (image_of m grid) p) ≡ value g p }
    ensures forces { (g : Game) → (grid : Grid) → (m : GridMap) → (p : Position) → (side : Side)
        → (goal : Goal) → board_of g.field ≡ Some grid
        → Fits g m
        → IsPosition g p
        → Forces g p side goal
        → Forces g (image_position (image_of m grid) p) side goal }
{}

/// An automorphism keeps what each criterion asks: the condition on the potential and on Avoider's,
/// pairs and threat lines, mapped point by point.
pub fn automorphisms_keep_criteria()
    ensures potential { (g : Game) → (f : ℕ → ℕ) → (back : ℕ → ℕ) → (p : Position) → (q : Position)
        → (side : Side) → IsAutomorphism g f back
        → IsImage g f p q
        → PotentialHolds g p side
        → PotentialHolds g q side }
    ensures avoider { (g : Game) → (f : ℕ → ℕ) → (back : ℕ → ℕ) → (p : Position) → (q : Position)
        → IsAutomorphism g f back
        → IsImage g f p q
        → AvoiderHolds g p
        → AvoiderHolds g q }
    ensures pairs { (g : Game) → (f : ℕ → ℕ) → (back : ℕ → ℕ) → (p : Position) → (q : Position)
        → (side : Side) → (pairs : List Pair) → IsAutomorphism g f back
        → IsImage g f p q
        → PairsHold g p side pairs
        → PairsHold g q side (map (image_pair f) pairs) }
    ensures threat { (g : Game) → (f : ℕ → ℕ) → (back : ℕ → ℕ) → (p : Position) → (q : Position)
        → (side : Side) → (points : List ℕ) → IsAutomorphism g f back
        → IsImage g f p q
        → IsThreatLine g p side points
        → IsThreatLine g q side (map f points) }
{}

/// An automorphism keeps that a position is no worse, and takes all free points onto all free
/// points: put in ascending order the images are the free points.
pub fn automorphisms_keep_replies()
    ensures no_worse { (g : Game) → (f : ℕ → ℕ) → (back : ℕ → ℕ) → (side : Side) → (q : Position)
        → (p : Position) → IsAutomorphism g f back
        → IsPosition g q
        → IsPosition g p
        → IsNoWorse side q p
        → IsNoWorse side (image_position f q) (image_position f p) }
    ensures free { (g : Game) → (f : ℕ → ℕ) → (back : ℕ → ℕ) → (p : Position) → (q : Position)
        → IsAutomorphism g f back
        → IsImage g f p q
        → IsPermutation (map f (free_points g p)) (free_points g q) }
    ensures replies { (g : Game) → (f : ℕ → ℕ) → (back : ℕ → ℕ) → (p : Position) → (q : Position)
        → (points : List ℕ) → IsAutomorphism g f back
        → IsImage g f p q
        → IsPermutation (map f (free_points g p)) points
        → AllPairs (λ x y. x < y) points
        → points ≡ free_points g q }
{}
