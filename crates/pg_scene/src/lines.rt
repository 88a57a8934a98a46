//! Lines.
ghost use Rattle.std.specs.Prelude.{◌≡◌, ◌<◌, ◌≤◌, ◌++◌, ◌∷◌, [], IfOk, OnOk, length, map, max};
ghost use Rattle.std.specs.Prelude.{nat_eq};
ghost use Rattle.pg_scene.specs.Prelude.{list_any, range_with_len};
ghost use Rattle.pg_captions.specs.Look.{are_drawn};
ghost use Rattle.pg_scene.specs.Items.{lane_of, line_item, line_items, overlap};

use crate::item::Item;
use pg_base::{Line, Memory, Points};
use pg_captions::are_drawn;
use std::alloc::Global;

/// Whether a line has the point.
fn has(line: &Line, v: u16) -> bool
    ensures { result ≡ list_any (nat_eq v) line.now }
{
    let points = line.as_slice();
    points.contains(&v)
}

/// Whether two lines may lie over one another: they have two points in common.
fn overlap(line: &Line, other: &Line) -> bool
    ensures { result ≡ overlap line.now other.now }
{
    let mut common: usize = 0;
    for v in line.as_slice() {
        if has(other, *v) {
            common += 1;
        }
    }
    common >= 2
}

/// The greater of two numbers.
fn greater_of(a: usize, b: usize) -> usize
    ensures { result ≡ max a b }
{
    a.max(b)
}

/// The lane of the line of that number, after those of the lines before it.
fn lane_of(lines: &[Line], lanes: &[usize], i: usize) -> usize
    requires inside { i < length lines.now }
    requires before { lanes.now ≡ map (lane_of lines.now) (range_with_len 0 i) }
    ensures lane { result ≡ lane_of lines.now i }
    ensures few { result ≤ i }
{
    let mut lane = 0;
    for j in 0..i {
        if overlap(&lines[i], &lines[j]) {
            lane = greater_of(lane, lanes[j] + 1);
        }
    }
    lane
}

/// The points of a line.
fn points_of(alloc: Global, line: &Line) -> Result<Points, Memory>
    ensures { IfOk result (λ points. points ≡ line.now) }
{
    Ok(Points::from_vec(line.as_slice().to_vec(alloc)?))
}

/// Puts the line of that number, in its lane.
fn put_line_of(
    alloc: Global,
    items: &mut Vec<Item>,
    lines: &[Line],
    i: usize,
    lane: usize,
) -> Result<(), Memory>
    requires inside { i < length lines.now }
    requires lane { lane ≡ lane_of lines.now i }
    ensures { OnOk result (items.new.items ≡ items.old.items ++ line_item lines.now i ∷ []) }
{
    let points = points_of(alloc, &lines[i])?;
    items.push(Item::Line { points, lane })?;
    Ok(())
}

/// Puts the lines, if they are to be seen and few enough.
pub(crate) fn put_lines(
    alloc: Global,
    items: &mut Vec<Item>,
    seen: bool,
    lines: &[Line],
) -> Result<(), Memory>
    ensures { OnOk result (items.new.items ≡ items.old.items ++ line_items seen lines.now) }
{
    if !are_drawn(seen, lines) {
        return Ok(());
    }
    let mut lanes = Vec::new(alloc);
    for i in 0..lines.len() {
        let lane = lane_of(lines, lanes.as_slice(), i);
        put_line_of(alloc, items, lines, i, lane)?;
        lanes.push(lane)?;
    }
    Ok(())
}
