//! Which positions can still matter.

use crate::backing::View;
use crate::report::{Lack, Need, Own};
use crate::span::Span;
use pg_base::Memory;
use pg_plan::{Place, Step};
use std::alloc::Global;

/// How a position can matter.
#[derive(Clone, Copy, Debug)]
struct Interest {
    /// How many alternatives come before those on the best way to it.
    lag: u32,
    /// The values between which it can decide.
    between: Span,
}

/// Returns the span that has both.
fn around(a: Span, b: Span) -> Span {
    Span {
        low: if a.low < b.low { a.low } else { b.low },
        high: if a.high < b.high { b.high } else { a.high },
    }
}

/// Adds how a position matters by one way that leads to it.
fn add(interests: &mut [Option<Interest>], i: usize, way: Interest) {
    if i < interests.len() {
        interests[i] = Some(match interests[i] {
            Some(old) => Interest {
                lag: old.lag.min(way.lag),
                between: around(old.between, way.between),
            },
            None => way,
        });
    }
}

/// Returns how the position of a number matters, with the values that it can still have of those
/// between which it can decide; or None if that is one value at most.
fn interest_at(view: &View<'_>, interests: &[Option<Interest>], i: usize) -> Option<Interest> {
    if i >= interests.len() {
        return None;
    }
    let interest = interests[i]?;
    let between = interest.between.meet(view.span(i));
    if !between.is_open() {
        return None;
    }
    let lag = interest.lag;
    Some(Interest { lag, between })
}

/// Adds how the positions after the moves matter: the first that does as the position itself, and
/// each further one by one alternative later.
fn add_steps(
    view: &View<'_>,
    steps: &[Step],
    interest: Interest,
    interests: &mut [Option<Interest>],
) {
    let mut lag = interest.lag;
    for step in steps {
        let between = interest.between.meet(view.span(step.place as usize));
        if between.is_open() {
            add(interests, step.place as usize, Interest { lag, between });
            lag = lag.saturating_add(1);
        }
    }
}

/// Returns why the certificate of a position is needed, or None if the plan goes on from it.
fn lack_of(own: Own, steps: &[Step]) -> Option<Lack> {
    if !steps.is_empty() {
        return None;
    }
    match own {
        Own::Lacks(lack) => Some(lack),
        Own::Says(_) => Some(Lack::Open),
        Own::Nothing => None,
    }
}

/// Adds how the positions matter to which this one leads, and returns what it needs itself.
fn look(
    view: &View<'_>,
    i: usize,
    place: &Place,
    interest: Interest,
    interests: &mut [Option<Interest>],
) -> Option<Need> {
    match place {
        Place::Decided => None,
        Place::Image { place, .. } => {
            add(interests, *place as usize, interest);
            None
        }
        Place::Game { file, steps } => {
            add_steps(view, steps.as_slice(), interest, interests);
            let lack = lack_of(view.own(i), steps.as_slice())?;
            Some(Need {
                lag: interest.lag,
                file: *file,
                lack,
            })
        }
        Place::Moves(steps) => {
            add_steps(view, steps.as_slice(), interest, interests);
            None
        }
    }
}

/// Returns the positions that are needed: those whose value isn't known and can decide that of the
/// game, the most telling first.
pub fn needs_of(alloc: Global, view: &View<'_>) -> Result<Vec<Need>, Memory> {
    let plan = view.plan;
    let mut needs = Vec::new(alloc);
    let mut interests: Vec<Option<Interest>> = vec![in alloc; None; plan.len()]?;
    if let Some(root) = plan.len().checked_sub(1) {
        let lag = 0;
        let between = Span::open();
        add(interests.as_mut_slice(), root, Interest { lag, between });
    }
    for done in 0..plan.len() {
        let i = plan.len() - 1 - done;
        if let Some(here) = interest_at(view, interests.as_slice(), i) {
            if let Some(need) = look(view, i, &plan[i], here, interests.as_mut_slice()) {
                needs.push(need)?;
            }
        }
    }
    needs.sort_unstable();
    Ok(needs)
}
