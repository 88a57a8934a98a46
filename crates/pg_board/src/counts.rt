//! The counts of a board's lines, as cells of its trail.
ghost use Rattle.std.specs.Prelude.{◌≡◌, ◌≤◌, ◌+◌, ℕ, ◌==◌, ◌&&◌, length};
ghost use Rattle.pg_board.specs.Prelude.{Side, other, one_if, Extends};
ghost use Rattle.pg_board.specs.Shape.{count_cell, free_cell, cell_count};
ghost use Rattle.pg_board.specs.Counts.{AreCounted, IsUnfilled, IsCountedMore, IsMoved, count_in};
ghost use Rattle.pg_board.specs.Counts.{lines_in};

use crate::layout::Layout;
use pg_base::Side;
use pg_game::MAX_LINES;
use pg_undo::Trail;

/// Where the line has none of the side's points: one line fewer of the side's with so many free
/// points, by their cell.
fn leave(layout: &Layout, trail: &mut Trail, side: Side, own: u32, free: u32) -> usize
    requires width { length trail.old.cells ≡ cell_count layout.now }
    requires short { free ≤ layout.now.longest }
    requires some { own ≡ 0 → 1 ≤ lines_in layout.now trail.old.cells side free }
    requires room { 1 ≤ trail.old.spare }
    ensures lines { IsMoved layout.now side (λ f. one_if ((own == 0) && (free == f)))
        (λ f. 0) trail.old.cells trail.new.cells }
    ensures trail { Extends 1 trail.old trail.new }
    ensures cell { own ≡ 0 → result ≡ free_cell layout.now side free }
{
    if own != 0 {
        return 0;
    }
    let cell = layout.free_cell(side, free);
    let lines = trail.get(cell);
    trail.set(cell, lines - 1);
    cell
}

/// Where the line has none of the side's points: it has one free point fewer.
fn narrow(layout: &Layout, trail: &mut Trail, side: Side, own: u32, free: u32)
    requires width { length trail.old.cells ≡ cell_count layout.now }
    requires range { (1 ≤ free) × (free ≤ layout.now.longest) }
    requires some { own ≡ 0 → 1 ≤ lines_in layout.now trail.old.cells side free }
    requires few { (f : ℕ) → f ≤ layout.now.longest
        → lines_in layout.now trail.old.cells side f ≤ MAX_LINES }
    requires room { 2 ≤ trail.old.spare }
    ensures lines { IsMoved layout.now side (λ f. one_if ((own == 0) && (free == f)))
        (λ f. one_if ((own == 0) && (free == f + 1))) trail.old.cells trail.new.cells }
    ensures trail { Extends 2 trail.old trail.new }
{
    if own == 0 {
        let cell = leave(layout, trail, side, own, free) - 1;
        let lines = trail.get(cell);
        trail.set(cell, lines + 1);
    }
}

/// One more point of the side in the line. Tells whether it had none before.
pub(crate) fn claim(layout: &Layout, trail: &mut Trail, side: Side, line: u32) -> bool
    requires counted { AreCounted layout.now trail.old.cells }
    requires unfilled { IsUnfilled layout.now trail.old.cells line }
    requires room { 4 ≤ trail.old.spare }
    ensures clear { result ≡ (count_in layout.now trail.old.cells side line == 0) }
    ensures counted { AreCounted layout.now trail.new.cells }
    ensures more { IsCountedMore layout.now side line trail.old.cells trail.new.cells }
    ensures trail { Extends 4 trail.old trail.new }
{
    let cell = layout.count_cell(side, line);
    let own = trail.get(cell);
    let enemy = side.other();
    let theirs = trail.get(layout.count_cell(enemy, line));
    let free = layout.line_len(line) - (own + theirs);
    leave(layout, trail, side, own, free);
    narrow(layout, trail, enemy, theirs, free);
    trail.set(cell, own + 1);
    own == 0
}
