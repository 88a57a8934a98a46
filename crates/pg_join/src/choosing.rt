//! Which positions of a plan a proof of the game rests on.

use pg_backing::{Own, View, may_take};
use pg_base::{Goal, Memory, Side};
use pg_plan::{Place, Step};
use std::alloc::Global;

/// What is to be shown: that the side reaches the goal.
#[derive(Clone, Copy, Debug, PartialEq, Eq)]
pub(crate) struct Target {
    pub(crate) side: Side,
    pub(crate) goal: Goal,
}

/// How the position of a number is shown.
#[derive(Clone, Copy, Debug, PartialEq, Eq)]
pub(crate) enum Choice {
    /// Not at all: the proof doesn't rest on it.
    Unused,
    /// By a leaf.
    Leaf,
    /// By its certificate.
    Certificate,
    /// As an image.
    Image,
    /// By the move at this index.
    Move(usize),
    /// By all moves.
    All,
}

/// Marks a position.
fn mark(marks: &mut [bool], i: usize) {
    if i < marks.len() {
        marks[i] = true;
    }
}

/// Returns whether a position is marked.
fn is_marked(marks: &[bool], i: usize) -> bool {
    i < marks.len() && marks[i]
}

/// Marks the positions after moves.
fn mark_steps(marks: &mut [bool], steps: &[Step]) {
    for step in steps {
        mark(marks, step.place as usize);
    }
}

/// Returns the index of the first move after which the side is known to reach the goal.
fn first_move(view: &View<'_>, i: usize, steps: &[Step], target: Target) -> Option<usize> {
    let position = view.position(i)?;
    for k in 0..steps.len() {
        let step = steps[k];
        if may_take(view.game, &position, step.point)
            && view
                .span(step.place as usize)
                .shows(target.side, target.goal)
        {
            return Some(k);
        }
    }
    None
}

/// Returns how a position is shown by moves, and marks those after them.
fn by_steps(
    view: &View<'_>,
    i: usize,
    steps: &[Step],
    target: Target,
    marks: &mut [bool],
) -> Choice {
    let Some(position) = view.position(i) else {
        return Choice::Unused;
    };
    if position.turn != target.side {
        mark_steps(marks, steps);
        return Choice::All;
    }
    match first_move(view, i, steps, target) {
        Some(k) if k < steps.len() => {
            mark(marks, steps[k].place as usize);
            Choice::Move(k)
        }
        _ => Choice::Unused,
    }
}

/// Returns how a position with a file is shown.
fn by_file(
    view: &View<'_>,
    i: usize,
    steps: &[Step],
    target: Target,
    marks: &mut [bool],
) -> Choice {
    match view.own(i) {
        Own::Says(span) if span.shows(target.side, target.goal) => Choice::Certificate,
        _ => by_steps(view, i, steps, target, marks),
    }
}

/// Returns how the position of a number is shown, and marks those on which that rests.
fn choice_at(
    view: &View<'_>,
    i: usize,
    place: &Place,
    target: Target,
    marks: &mut [bool],
) -> Choice {
    match place {
        Place::Decided => Choice::Leaf,
        Place::Image { place, .. } => {
            mark(marks, *place as usize);
            Choice::Image
        }
        Place::Game { steps, .. } => by_file(view, i, steps.as_slice(), target, marks),
        Place::Moves(steps) => by_steps(view, i, steps.as_slice(), target, marks),
    }
}

/// Returns how each position is shown on which a proof of the game rests, from the last number
/// down.
pub(crate) fn choices_of(
    alloc: Global,
    view: &View<'_>,
    target: Target,
) -> Result<Vec<Choice>, Memory> {
    let plan = view.plan;
    let mut choices = vec![in alloc; Choice::Unused; plan.len()]?;
    let mut marks = vec![in alloc; false; plan.len()]?;
    if let Some(root) = plan.len().checked_sub(1) {
        mark(marks.as_mut_slice(), root);
    }
    for done in 0..plan.len() {
        let i = plan.len() - 1 - done;
        if is_marked(marks.as_slice(), i) && i < choices.len() {
            choices[i] = choice_at(view, i, &plan[i], target, marks.as_mut_slice());
        }
    }
    Ok(choices)
}
