//! Whether a potential decides a board's position, and whether the game is over, by counts.
ghost use Rattle.std.specs.Prelude.{◌≡◌, ◌<◌, ◌≤◌, ◌+◌, length, get_or};
ghost use Rattle.pg_board.specs.Prelude.{list_any, points_of, is_filled, x_takes_last};
ghost use Rattle.pg_board.specs.Shape.{turn_cell};
ghost use Rattle.pg_board.specs.Fits.{position_of, free_points_in};
ghost use Rattle.pg_board.specs.Totals.{times_in, potential_in, avoider_in, Agree, IsBase};

use crate::layout::Layout;
use crate::points::{left, turn};
use crate::totals::{greatest_weight, live_with, total};
use pg_base::Side;
use pg_game::x_takes_last;
use pg_undo::Trail;

/// How often the greatest weight counts for the side.
fn times_counted(layout: &Layout, trail: &Trail, bias: u8, side: Side) -> u8
    requires agrees { Agree layout.now trail.now.cells }
    requires some { 1 ≤ bias }
    requires turn { get_or trail.now.cells turn_cell 0 ≤ bias }
    ensures { result ≡ times_in (record {
      bias = bias;
      shape = layout.now;
    }) (position_of layout.now trail.now.cells) side }
{
    if side.is_same(turn(trail)) {
        bias - left(trail)
    } else {
        bias
    }
}

/// Whether the potential is low enough for the side: the total, with the greatest weight of a free
/// point as often as it counts, is below the limit. The greatest weight is found only where the
/// total is below it.
pub(crate) fn potential_holds(layout: &Layout, trail: &Trail, bias: u8, side: Side) -> bool
    requires agrees { Agree layout.now trail.now.cells }
    requires fits { IsBase (1 + bias) layout.now }
    requires some { 1 ≤ bias }
    requires few { bias ≤ 7 }
    requires turn { get_or trail.now.cells turn_cell 0 ≤ bias }
    ensures { result ≡ potential_in (record {
      bias = bias;
      shape = layout.now;
    }) (position_of layout.now trail.now.cells) side }
{
    let base = 1 + u128::from(bias);
    let limit = base.pow(u32::from(layout.longest()));
    let total = total(layout, trail, side, base);
    if total >= limit {
        return false;
    }
    let times = u128::from(times_counted(layout, trail, bias, side));
    if times == 0 {
        return true;
    }
    total + times * greatest_weight(layout, trail, side, base) < limit
}

/// Whether Avoider takes the last of so many free points.
fn avoider_ends(layout: &Layout, trail: &Trail, bias: u8, free: u16) -> bool
    requires agrees { Agree layout.now trail.now.cells }
    requires few { bias ≤ 7 }
    requires turn { get_or trail.now.cells turn_cell 0 ≤ bias }
    requires free { free
        ≡ length (free_points_in layout.now (position_of layout.now trail.now.cells)) }
    ensures { result ≡ x_takes_last bias (position_of layout.now trail.now.cells).turn
        (position_of layout.now trail.now.cells).left
        (length (free_points_in layout.now (position_of layout.now trail.now.cells))) }
{
    x_takes_last(u16::from(bias), turn(trail), u16::from(left(trail)), free)
}

/// Whether Avoider's potential is low enough: the total, twice where Avoider takes the last free
/// point, is below the limit.
pub(crate) fn avoider_holds(layout: &Layout, trail: &Trail, bias: u8, free: u16) -> bool
    requires agrees { Agree layout.now trail.now.cells }
    requires fits { IsBase 2 layout.now }
    requires few { bias ≤ 7 }
    requires turn { get_or trail.now.cells turn_cell 0 ≤ bias }
    requires free { free
        ≡ length (free_points_in layout.now (position_of layout.now trail.now.cells)) }
    ensures { result ≡ avoider_in (record {
      bias = bias;
      shape = layout.now;
    }) (position_of layout.now trail.now.cells) }
{
    let base: u128 = 2;
    let limit = base.pow(u32::from(layout.longest()));
    let total = total(layout, trail, Side::Y, base);
    if total >= limit {
        return false;
    }
    let risk = if avoider_ends(layout, trail, bias, free) {
        2 * total
    } else {
        total
    };
    risk < limit
}

/// Whether the side has filled a line: some line has no point of the other side and no free point.
pub(crate) fn has_filled(layout: &Layout, trail: &Trail, side: Side) -> bool
    requires { Agree layout.now trail.now.cells }
    ensures { result ≡ list_any
        (is_filled (points_of (position_of layout.now trail.now.cells) side)) layout.now.lines }
{
    live_with(layout, trail, side.other(), 0) != 0
}
