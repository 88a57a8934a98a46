//! Claims of all lines through a point, and how they are taken back.
ghost use Rattle.std.specs.Prelude.{◌≡◌, ◌<◌, ◌≤◌, ◌+◌, ◌-◌, ◌*◌, ℕ, true, [], ◌∷◌, length, take};
ghost use Rattle.pg_board.specs.Prelude.{X, Y, is_on, present};
ghost use Rattle.pg_board.specs.Shape.{line_in, lines_through, degree_in, cell_count};
ghost use Rattle.pg_board.specs.Counts.{AreCounted, IsUnfilled, count_in, clear_lines};
ghost use Rattle.pg_board.specs.Lines.{Claims, clear_in};

use crate::counts::claim;
use crate::layout::Layout;
use pg_base::Side;
use pg_undo::{Ring, Trail};

/// One more point of the side in the line, which leaves the side's live lines.
fn claim_line(layout: &Layout, trail: &mut Trail, live: &mut Ring, side: Side, line: u32)
    requires counted { AreCounted layout.now trail.old.cells }
    requires unfilled { IsUnfilled layout.now trail.old.cells line }
    requires live { present live.old
        ≡ clear_lines layout.now (count_in layout.now trail.old.cells) side }
    requires room { 4 ≤ trail.old.spare }
    ensures { Claims layout.now side (line ∷ []) trail.old trail.new live.old live.new }
{
    if claim(layout, trail, side, line) {
        live.unlink(line);
    }
}

/// One more point of the side in each line through the point.
pub(crate) fn claim_lines(layout: &Layout, trail: &mut Trail, live: &mut Ring, side: Side, v: u16)
    requires counted { AreCounted layout.now trail.old.cells }
    requires range { v < layout.now.points }
    requires free { (i : ℕ) → i < length layout.now.lines
        → is_on v (line_in layout.now i) ≡ true
        → count_in layout.now trail.old.cells X i + count_in layout.now trail.old.cells Y i
        < length (line_in layout.now i) }
    requires live { present live.old
        ≡ clear_lines layout.now (count_in layout.now trail.old.cells) side }
    requires room { 4 * degree_in layout.now v ≤ trail.old.spare }
    ensures { Claims layout.now side
        (lines_through layout.now v) trail.old trail.new live.old live.new }
{
    for line in layout.through(v) {
        claim_line(layout, trail, live, side, *line);
    }
}

/// Puts back the lines through the point that have none of the side's points.
pub(crate) fn relink_lines(layout: &Layout, trail: &Trail, live: &mut Ring, side: Side, v: u16)
    requires width { length trail.now.cells ≡ cell_count layout.now }
    requires range { v < layout.now.points }
    requires many { clear_in layout.now trail.now.cells side (lines_through layout.now v)
        < length live.old }
    ensures { live.new ≡ take
        (length live.old - clear_in layout.now trail.now.cells side (lines_through layout.now v))
        live.old }
{
    for line in layout.through(v) {
        if trail.get(layout.count_cell(side, *line)) == 0 {
            live.relink();
        }
    }
}
