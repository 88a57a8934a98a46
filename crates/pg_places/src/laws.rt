//! Laws of places. Each function is empty: what it promises is a law of the definitions alone.
ghost use Rattle.std.specs.Prelude.{◌≡◌, ◌≢◌, ◌≤◌, ◌<◌, ℕ, false};
ghost use Rattle.pg_places.specs.Prelude.{Chart, IsLayout, MAX_VERTICES, spots_of};
ghost use Rattle.pg_places.specs.Courses.{IsChord, chord_place, have_same_ends};
ghost use Rattle.pg_places.specs.Places.{AreApart, IsCellApart, place_on_bridge, place_on_chart};
ghost use Rattle.pg_places.specs.Places.{place_on_circle, place_on_grid, place_on_ring};

/// Different points of a board of squares lie at different places.
pub fn cells_lie_apart()
    ensures { (width v w : ℕ) → place_on_grid width v ≡ place_on_grid width w → v ≡ w }
{}

/// Different vertices of a Bridg-It board lie at different places.
pub fn bridge_vertices_lie_apart()
    ensures { (rows u v : ℕ) → place_on_bridge rows u u ≡ place_on_bridge rows v v → u ≡ v }
{}

/// Different members of a circle lie at different places.
pub fn members_of_circles_lie_apart()
    ensures { (count u v : ℕ) → count ≤ MAX_VERTICES
        → u < count
        → v < count
        → place_on_circle count u ≡ place_on_circle count v
        → u ≡ v }
{}

/// Different points that have no place of their own lie at different places.
pub fn points_of_rings_lie_apart()
    ensures { (points u v : ℕ) → u < points
        → v < points
        → place_on_ring points u ≡ place_on_ring points v
        → u ≡ v }
{}

/// Different points of a layout lie a cell apart at least, across or down.
pub fn points_of_layouts_lie_apart()
    ensures { (chart : Chart) → (points u v : ℕ) → IsLayout points (spots_of chart)
        → u < points
        → v < points
        → u ≢ v
        → IsCellApart (place_on_chart chart u) (place_on_chart chart v) }
{}

/// Different edges between up to 20 vertices on a circle, each of which is the first between its
/// ends, have places that are six units apart at least, across or down; between up to eight
/// vertices they are 19 units apart, so that no number covers another.
pub fn edges_on_circles_lie_apart()
    ensures apart { (vertices : ℕ) → (a b : ℕ × ℕ) → vertices ≤ 20
        → IsChord vertices a
        → IsChord vertices b
        → have_same_ends a b ≡ false
        → AreApart 6 (chord_place vertices a) (chord_place vertices b) }
    ensures clear { (vertices : ℕ) → (a b : ℕ × ℕ) → vertices ≤ 8
        → IsChord vertices a
        → IsChord vertices b
        → have_same_ends a b ≡ false
        → AreApart 19 (chord_place vertices a) (chord_place vertices b) }
{}
