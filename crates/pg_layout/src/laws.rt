//! Laws of reading. The function is empty: what it promises is a law of the definitions alone.
ghost use Rattle.std.specs.Prelude.{◌≡◌, ℕ, List, Ok};
ghost use Rattle.pg_layout.specs.LayoutFile.{layout_of};
ghost use Rattle.pg_layout.specs.Layouts.{IsLayout};
ghost use Rattle.pg_layout.specs.declared.spot.Spot.{Spot};

/// The places that are read are those of a layout: there is one for each point, its numbers are in
/// range, and no two are too near.
pub fn what_is_read_is_a_layout()
    ensures { (points : ℕ) → (text : List ℕ) → (spots : List Spot)
        → layout_of points text ≡ Ok spots
        → IsLayout points spots }
{}
