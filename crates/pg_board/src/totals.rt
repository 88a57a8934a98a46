//! The weights of a board's lines and points.
ghost use Rattle.std.specs.Prelude.{◌≡◌, ◌<◌, ◌≤◌, ◌+◌, ◌^◌, length, if◌then◌else◌};
ghost use Rattle.pg_board.specs.Prelude.{Y, other, is_free, points_of, line_weight};
ghost use Rattle.pg_board.specs.Shape.{line_in};
ghost use Rattle.pg_board.specs.Fits.{position_of};
ghost use Rattle.pg_board.specs.Totals.{live_with_in, total_in, weight_in, greatest_in, Agree};
ghost use Rattle.pg_board.specs.Totals.{IsBase};

use crate::layout::Layout;
use crate::points::is_unmarked;
use pg_base::Side;
use pg_undo::Trail;

/// How many lines without a point of the side have so many free points.
pub(crate) fn live_with(layout: &Layout, trail: &Trail, side: Side, free: u16) -> u32
    requires agrees { Agree layout.now trail.now.cells }
    requires short { free ≤ layout.now.longest }
    ensures { result ≡ live_with_in layout.now (position_of layout.now trail.now.cells) side free }
{
    trail.get(layout.free_cell(side, u32::from(free)))
}

/// The sum of the weights of the lines without a point of the side, from how many of them have how
/// many free points.
pub(crate) fn total(layout: &Layout, trail: &Trail, side: Side, base: u128) -> u128
    requires agrees { Agree layout.now trail.now.cells }
    requires fits { IsBase base layout.now }
    ensures exact { result
        ≡ total_in base layout.now (position_of layout.now trail.now.cells) side }
    ensures few { result ≤ 2 ^ 115 }
{
    let mut total = 0;
    for free in 0..u32::from(layout.longest()) + 1 {
        let lines = trail.get(layout.free_cell(side, free));
        total = total * base + u128::from(lines);
    }
    total
}

/// The base to the power of the exponent. A power of 2 takes one step.
fn power(base: u128, exponent: u32) -> u128
    requires { base ^ exponent < 2 ^ 128 }
    ensures { result ≡ base ^ exponent }
{
    if base == 2 && exponent < 128 {
        1 << exponent
    } else {
        base.pow(exponent)
    }
}

/// What a line with none of the side's points weighs: the base to the power of `longest` less its
/// free points.
fn live_weight(layout: &Layout, trail: &Trail, side: Side, base: u128, line: u32) -> u128
    requires agrees { Agree layout.now trail.now.cells }
    requires fits { IsBase base layout.now }
    requires range { line < length layout.now.lines }
    ensures { result ≡ line_weight base layout.now.longest
        (points_of (position_of layout.now trail.now.cells) side)
        (position_of layout.now trail.now.cells) (line_in layout.now line) }
{
    if trail.get(layout.count_cell(side, line)) != 0 {
        return 0;
    }
    let theirs = trail.get(layout.count_cell(side.other(), line));
    let free = layout.line(line).len() as u32 - theirs;
    power(base, u32::from(layout.longest()) - free)
}

/// The sum of the weights of the lines through the point.
pub(crate) fn weight(layout: &Layout, trail: &Trail, side: Side, base: u128, v: u16) -> u128
    requires agrees { Agree layout.now trail.now.cells }
    requires fits { IsBase base layout.now }
    requires range { v < layout.now.points }
    ensures exact { result
        ≡ weight_in base layout.now (position_of layout.now trail.now.cells) side v }
    ensures few { result ≤ 2 ^ 115 }
{
    let mut weight = 0;
    for line in layout.through(v) {
        weight += live_weight(layout, trail, side, base, *line);
    }
    weight
}

/// What the point weighs where it is free, and 0 where it isn't.
fn free_weight(layout: &Layout, trail: &Trail, side: Side, base: u128, v: u16) -> u128
    requires agrees { Agree layout.now trail.now.cells }
    requires fits { IsBase base layout.now }
    requires range { v < layout.now.points }
    ensures exact { result ≡ (if is_free (position_of layout.now trail.now.cells) v
        then weight_in base layout.now (position_of layout.now trail.now.cells) side v
        else 0) }
    ensures few { result ≤ 2 ^ 115 }
{
    if is_unmarked(layout, trail, v) {
        weight(layout, trail, side, base, v)
    } else {
        0
    }
}

/// The greatest weight of a free point, and 0 where none is free.
pub(crate) fn greatest_weight(layout: &Layout, trail: &Trail, side: Side, base: u128) -> u128
    requires agrees { Agree layout.now trail.now.cells }
    requires fits { IsBase base layout.now }
    ensures exact { result
        ≡ greatest_in base layout.now (position_of layout.now trail.now.cells) side }
    ensures few { result ≤ 2 ^ 115 }
{
    let mut greatest = 0;
    for v in 0..layout.points() {
        let weight = free_weight(layout, trail, side, base, v);
        if weight > greatest {
            greatest = weight;
        }
    }
    greatest
}
