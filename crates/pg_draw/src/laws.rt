//! Laws of pictures. Each function is empty: what it promises is a law of the definitions alone.
ghost use Rattle.std.specs.Prelude.{◌≡◌, ◌<◌, ◌∷◌, ◌++◌, ℕ, true, List};
ghost use Rattle.pg_draw.specs.Prelude.{are_drawn, lines_of, points_on, vertices_on, Board, Game};
ghost use Rattle.pg_draw.specs.Prelude.{IsBoard, IsBoardOf, Item, Look, Scene};
ghost use Rattle.pg_draw.specs.Laws.{AreDrawnApart, IsDrawnBetween, IsInside, vertex_place};
ghost use Rattle.pg_draw.specs.Pictures.{picture_of};
ghost use Rattle.pg_draw.specs.Shapes.{courses_of, place_of};

/// Each item has its shapes once, after those of the items before it.
pub fn items_are_drawn_in_order()
    ensures { (look : Look) → (scene : Scene) → (before after : List Item) → (item : Item)
        → scene.items ≡ before ++ item ∷ after
        → IsDrawnBetween look scene before item after }
{}

/// On the board of a game whose lines are drawn, two lines with two points in common are drawn
/// apart: at no point of the board they have the same place.
pub fn overlapping_lines_are_drawn_apart()
    ensures { (look : Look) → (g : Game) → (board : Board) → IsBoardOf look.layout g.field board
        → are_drawn look.lines (lines_of g) ≡ true
        → AreDrawnApart board (lines_of g) }
{}

/// Each point of a board lies in the picture, with half a cell to its right and below it.
pub fn points_lie_in_the_picture()
    ensures { (look : Look) → (scene : Scene) → (v : ℕ) → v < points_on scene.board
        → IsInside (picture_of look scene)
        (place_of scene.board (courses_of scene.board) v) }
{}

/// Each vertex of a board within the limits lies in the picture, with half a cell to its right and
/// below it.
pub fn vertices_lie_in_the_picture()
    ensures { (look : Look) → (scene : Scene) → (u : ℕ) → IsBoard scene.board
        → u < vertices_on scene.board
        → IsInside (picture_of look scene) (vertex_place scene.board u) }
{}
