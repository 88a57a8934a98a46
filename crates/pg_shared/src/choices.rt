//! The pairs that may be chosen for a line.
ghost use Rattle.std.specs.Prelude.{◌≡◌, ◌<◌, ◌≤◌, IfOk, IfSome, IfNone, length};
ghost use Rattle.pg_shared.specs.Prelude.{MAX_MEMBERS};

use crate::lines::OpenLine;
use pg_base::{MAX_MEMBERS, Memory, PointSet};
use std::alloc::Global;

/// What a line costs that a choice leaves as it is: more than one saves that has a point more in no
/// pair.
const UNTOUCHED: u32 = 16;

/// A pair that may be chosen, and how much it costs.
#[derive(Clone, Copy, Debug)]
pub(crate) struct Choice {
    /// One point.
    pub(crate) a: u16,
    /// The other point.
    pub(crate) b: u16,
    /// What the lines that hold no pair yet cost after it. The choice of least cost is tried first.
    pub(crate) cost: u32,
    ghost a_few: { a < MAX_MEMBERS },
    ghost b_few: { b < MAX_MEMBERS },
}

/// What a line costs of which a choice takes one point, where so many were in no pair; None where
/// it could hold no pair any more.
fn cost_of_touched(left: u32) -> Option<u32>
    ensures some { IfSome result (λ cost. 16 < cost) }
    ensures none { IfNone result (left ≤ 2) }
{
    match left {
        0..=2 => None,
        3 => Some(UNTOUCHED + 8),
        4 => Some(UNTOUCHED + 4),
        5 => Some(UNTOUCHED + 2),
        _ => Some(UNTOUCHED + 1),
    }
}

/// What the line costs once the two points are chosen: nothing where it holds both or held a pair
/// before. None comes where it could hold no pair any more.
fn cost_at(line: &OpenLine, a: u16, b: u16) -> Option<u32>
    requires a_few { a < MAX_MEMBERS }
    requires b_few { b < MAX_MEMBERS }
{
    if line.held_by > 0 {
        return Some(0);
    }
    match (line.points.has(a), line.points.has(b)) {
        (true, true) => Some(0),
        (false, false) => Some(UNTOUCHED),
        _ => cost_of_touched(line.left),
    }
}

/// What all lines cost once the two points are chosen, and None where one could hold no pair any
/// more.
fn cost_of(lines: &[OpenLine], a: u16, b: u16) -> Option<u32>
    requires a_few { a < MAX_MEMBERS }
    requires b_few { b < MAX_MEMBERS }
{
    let mut cost: u32 = 0;
    for line in lines {
        let more = cost_at(line, a, b)?;
        cost = cost.saturating_add(more);
    }
    Some(cost)
}

/// Puts the pairs of the point and a greater one of the set to the choices, those that leave each
/// line one that can hold a pair.
fn put_choices(
    lines: &[OpenLine],
    free: &PointSet,
    a: u16,
    choices: &mut Vec<Choice>,
) -> Result<(), Memory>
    requires { a < MAX_MEMBERS }
{
    let mut next = a + 1;
    while let Some(b) = free.first_from(next) {
        if let Some(cost) = cost_of(lines, a, b) {
            choices.push(Choice { a, b, cost })?;
        }
        next = b + 1;
    }
    Ok(())
}

/// The pairs of points of the set that leave each line one that holds a pair or can.
pub(crate) fn choices_in(
    alloc: Global,
    lines: &[OpenLine],
    free: &PointSet,
) -> Result<Vec<Choice>, Memory> {
    let mut choices = Vec::new(alloc);
    let mut next = 0;
    while let Some(a) = free.first_from(next) {
        put_choices(lines, free, a, &mut choices)?;
        next = a + 1;
    }
    Ok(choices)
}

/// The place of a choice of least cost, and None exactly where there is no choice.
fn cheapest(choices: &[Choice]) -> Option<usize>
    ensures some { IfSome result (λ i. i < length choices.now) }
    ensures none { IfNone result (length choices.now ≡ 0) }
{
    if choices.is_empty() {
        return None;
    }
    let mut best = 0;
    for i in 1..choices.len() {
        if choices[i].cost < choices[best].cost {
            best = i;
        }
    }
    Some(best)
}

/// Takes a choice of least cost out of the choices, and None exactly where there is none.
pub(crate) fn take_cheapest(choices: &mut Vec<Choice>) -> Option<Choice> {
    let i = cheapest(choices)?;
    Some(choices.swap_remove(i))
}
