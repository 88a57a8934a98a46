//! What the test of a word and the list of placements tell, as laws.
ghost use Rattle.std.specs.Prelude.{◌≡◌, ◌<◌, true, length, List};
ghost use Rattle.pg_poly.specs.Prelude.{Grid, Bytes};
ghost use Rattle.pg_poly.specs.declared.cell.Cell.{Cell};
ghost use Rattle.pg_poly.specs.Decided.{is_shape};
ghost use Rattle.pg_poly.specs.Listed.{placements_of};
ghost use Rattle.pg_poly.specs.Placements.{ArePlacements};
ghost use Rattle.pg_poly.specs.Shapes.{IsShape};

/// The test by which a game file's shapes are recognised finds exactly the shapes.
pub fn shapes_are_told()
    ensures sound { (word : Bytes) → is_shape word ≡ true → IsShape word }
    ensures complete { (word : Bytes) → IsShape word → is_shape word ≡ true }
{}

/// The list by which a game file's shapes become lines has each placement once, in order.
pub fn placements_are_listed()
    ensures { (grid : Grid) → (cells : List Cell) → 0 < length cells
        → ArePlacements grid cells (placements_of grid cells) }
{}
