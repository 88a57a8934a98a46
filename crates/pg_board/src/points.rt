//! A point that a side claims, and the turn that passes.
ghost use Rattle.std.specs.Prelude.{◌≡◌, ◌<◌, ◌≤◌, ◌+◌, ◌*◌, ◌^◌, ℕ, true, length, get_or};
ghost use Rattle.pg_board.specs.Prelude.{Contains, find, X, Y, is_on, present, with_cell, with_set};
ghost use Rattle.pg_board.specs.Passing.{other_turn};
ghost use Rattle.pg_board.specs.Near.{has_none};
ghost use Rattle.pg_board.specs.Shape.{line_in, degree_in, turn_cell, mark_cell, cell_count};
ghost use Rattle.pg_board.specs.Counts.{AreCounted, count_in, clear_lines};
ghost use Rattle.pg_board.specs.Points.{ClaimsPoint, next_turn};
ghost use Rattle.pg_board.specs.Fits.{turn_of, left_of, mark_of, has_mark, set_below};

use crate::layout::Layout;
use crate::lines::claim_lines;
use pg_base::{PointSet, Side};
use pg_game::MAX_POINTS;
use pg_undo::{Ring, Trail};

/// The side to move.
pub(crate) fn turn(trail: &Trail) -> Side
    requires { 1 ≤ length trail.now.cells }
    ensures { result ≡ turn_of (get_or trail.now.cells turn_cell 0) }
{
    if trail.get(0) == 0 { Side::X } else { Side::Y }
}

/// How many points it still claims in its turn.
pub(crate) fn left(trail: &Trail) -> u8
    requires width { 1 ≤ length trail.now.cells }
    requires few { get_or trail.now.cells turn_cell 0 < 2 ^ 8 }
    ensures { result ≡ left_of (get_or trail.now.cells turn_cell 0) }
{
    let left = trail.get(0);
    if left == 0 { 1 } else { left as u8 }
}

/// The points with the side's mark.
pub(crate) fn marked(layout: &Layout, trail: &Trail, side: Side) -> PointSet
    requires width { length trail.now.cells ≡ cell_count layout.now }
    requires few { layout.now.points ≤ MAX_POINTS }
    ensures { result ≡ set_below (has_mark trail.now.cells side) layout.now.points }
{
    let mark = mark_of(side);
    let mut points = PointSet::empty();
    for v in 0..layout.points() {
        if trail.get(layout.mark_cell(v)) == mark {
            points.put(v);
        }
    }
    points
}

/// Whether the point has neither side's mark.
pub(crate) fn is_unmarked(layout: &Layout, trail: &Trail, v: u16) -> bool
    requires { mark_cell v < length trail.now.cells }
    ensures { result ≡ has_none trail.now.cells v }
{
    let mark = trail.get(layout.mark_cell(v));
    mark != mark_of(Side::X) && mark != mark_of(Side::Y)
}

/// The first point of the line without a mark.
pub(crate) fn free_point(layout: &Layout, trail: &Trail, line: u32) -> Option<u16>
    requires width { length trail.now.cells ≡ cell_count layout.now }
    requires range { line < length layout.now.lines }
    ensures { result ≡ find (has_none trail.now.cells) (line_in layout.now line) }
{
    for v in layout.line(line) {
        let v = *v as u16;
        if is_unmarked(layout, trail, v) {
            return Some(v);
        }
    }
    None
}

/// The point becomes the side's.
pub(crate) fn claim_point(
    layout: &Layout,
    trail: &mut Trail,
    live: &mut Ring,
    free: &mut Ring,
    side: Side,
    v: u16,
)
    requires counted { AreCounted layout.now trail.old.cells }
    requires range { v < layout.now.points }
    requires open { (i : ℕ) → i < length layout.now.lines
        → is_on v (line_in layout.now i) ≡ true
        → count_in layout.now trail.old.cells X i + count_in layout.now trail.old.cells Y i
        < length (line_in layout.now i) }
    requires live { present live.old
        ≡ clear_lines layout.now (count_in layout.now trail.old.cells) side }
    requires free { Contains (present free.old) v }
    requires room { 1 + 4 * degree_in layout.now v ≤ trail.old.spare }
    ensures { ClaimsPoint layout.now side v trail.old trail.new live.old live.new free.old
        free.new }
{
    claim_lines(layout, trail, live, side, v);
    trail.set(layout.mark_cell(v), mark_of(side));
    free.unlink(u32::from(v));
}

/// The mark of a side's points.
fn mark_of(side: Side) -> u32
    ensures { result ≡ mark_of side }
{
    match side {
        Side::X => 1,
        Side::Y => 2,
    }
}

/// The side to move has claimed one point more of its turn.
pub(crate) fn pass(trail: &mut Trail, bias: u8)
    requires width { 1 ≤ length trail.old.cells }
    requires room { 1 ≤ trail.old.spare }
    ensures { trail.new
        ≡ with_set trail.old turn_cell (next_turn bias (get_or trail.old.cells turn_cell 0)) }
{
    let left = trail.get(0);
    trail.set(0, if left == 0 { u32::from(bias) } else { left - 1 });
}

/// The other side is to move, where each side claims one point a turn. Nothing is written down.
pub(crate) fn hand_over(trail: &mut Trail)
    requires { 1 ≤ length trail.old.cells }
    ensures { trail.new
        ≡ with_cell trail.old turn_cell (other_turn (get_or trail.old.cells turn_cell 0)) }
{
    let turn = trail.get(0);
    trail.put(0, if turn == 0 { 1 } else { 0 });
}
