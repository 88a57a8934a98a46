//! How edges run.
ghost use Rattle.std.specs.Prelude.{◌≡◌, ◌+◌, ◌≤◌, length};
ghost use Rattle.pg_places.specs.Prelude.{count_by, MAX_EDGES};
ghost use Rattle.pg_places.specs.Places.{IsPlan, IsWithin};
ghost use Rattle.pg_places.specs.Courses.{IsNear, bend_of, beside, course_of, have_same_ends};
ghost use Rattle.pg_places.specs.Courses.{is_near_first, middle_of, midway, on_bow, part_way};
ghost use Rattle.pg_places.specs.Courses.{place_on, two_sevenths};

use crate::measures::{BEND, LOOP, MAX_END_REACH, MAX_MIDDLE_REACH};
use crate::vertices::Plan;
use pg_picture::Place;

/// How an edge runs.
#[derive(Clone, Copy, Debug, PartialEq, Eq)]
pub enum Course {
    /// Straight from one place to another.
    Straight {
        /// Where it begins.
        from: Place,
        /// Where it ends.
        to: Place,
        /// Where its number and its rings stand.
        place: Place,
    },
    /// Bent towards a place.
    Bent {
        /// Where it begins.
        from: Place,
        /// The place towards which it is bent.
        bend: Place,
        /// Where it ends.
        to: Place,
        /// Where its number and its rings stand.
        place: Place,
    },
    /// From a vertex back to it, around a place beside it.
    Around {
        /// The place around which it runs.
        centre: Place,
    },
}

/// Returns the place half way between two.
pub fn midway(a: Place, b: Place) -> Place
    ensures { result ≡ midway a b }
{
    Place {
        across: a.across.midpoint(b.across),
        down: a.down.midpoint(b.down),
    }
}

/// The place two sevenths of the way from one place to another.
fn two_sevenths(a: Place, b: Place) -> Place
    requires a { IsWithin MAX_MIDDLE_REACH a }
    requires b { IsWithin MAX_MIDDLE_REACH b }
    ensures place { result ≡ two_sevenths a b }
    ensures near { IsWithin MAX_MIDDLE_REACH result }
{
    Place {
        across: (5 * a.across + 2 * b.across) / 7,
        down: (5 * a.down + 2 * b.down) / 7,
    }
}

/// Whether what stands on an edge between vertices on a circle is near the first of its ends.
fn is_near_first(vertices: u32, edge: (u16, u16)) -> bool
    ensures { result ≡ is_near_first vertices edge }
{
    if 2 * u32::from(edge.0.abs_diff(edge.1)) <= vertices {
        edge.0 < edge.1
    } else {
        edge.1 < edge.0
    }
}

/// The place part of the way from one place to another, in the direction of an edge: half of the
/// way on a board of Bridg-It, else two sevenths of it from the end that its number is near.
fn part_way(plan: Plan, edge: (u16, u16), a: Place, b: Place) -> Place
    requires a { IsWithin MAX_MIDDLE_REACH a }
    requires b { IsWithin MAX_MIDDLE_REACH b }
    ensures place { result ≡ part_way plan edge a b }
    ensures near { IsWithin MAX_MIDDLE_REACH result }
{
    match plan.bridge {
        Some(_) => midway(a, b),
        None => {
            if is_near_first(plan.vertices, edge) {
                two_sevenths(a, b)
            } else {
                two_sevenths(b, a)
            }
        }
    }
}

/// The place on a bow that is part of the way along it.
fn on_bow(plan: Plan, edge: (u16, u16), from: Place, bend: Place, to: Place) -> Place
    requires from { IsWithin MAX_MIDDLE_REACH from }
    requires bend { IsWithin MAX_MIDDLE_REACH bend }
    requires to { IsWithin MAX_MIDDLE_REACH to }
    ensures place { result ≡ on_bow plan edge from bend to }
    ensures near { IsWithin MAX_MIDDLE_REACH result }
{
    let first = part_way(plan, edge, from, bend);
    let second = part_way(plan, edge, bend, to);
    part_way(plan, edge, first, second)
}

/// Returns where the number and the rings of an edge stand.
pub fn place_on(course: Course) -> Place
    ensures { result ≡ place_on course }
{
    match course {
        Course::Straight { place, .. } | Course::Bent { place, .. } => place,
        Course::Around { centre } => centre,
    }
}

/// The middle of an edge.
pub(crate) fn middle_of(course: Course) -> Place
    ensures { result ≡ middle_of course }
{
    match course {
        Course::Straight { from, to, .. } => midway(from, to),
        Course::Bent { from, bend, to, .. } => midway(midway(from, to), bend),
        Course::Around { centre } => centre,
    }
}

/// Whether two edges have the same two ends.
fn have_same_ends(a: (u16, u16), b: (u16, u16)) -> bool
    ensures { result ≡ have_same_ends a b }
{
    (a.0 == b.0 && a.1 == b.1) || (a.0 == b.1 && a.1 == b.0)
}

/// Returns how many of the edges have the same two ends as this one.
pub fn parallels(ends: &[(u16, u16)], edge: (u16, u16)) -> u32
    requires { length ends.now ≤ MAX_EDGES }
    ensures parallels { result ≡ count_by (have_same_ends edge) ends.now }
    ensures few { result ≤ MAX_EDGES }
{
    let mut count = 0;
    for other in ends {
        if have_same_ends(edge, *other) {
            count += 1;
        }
    }
    count
}

/// The place towards which an edge is bent: down from its middle where it leads rather across, else
/// to the right.
#[tactic(auto, unfolding(crate::specs::Courses::bend_of))]
fn bend_of(from: Place, to: Place, steps: u32) -> Place
    requires from { IsWithin MAX_END_REACH from }
    requires to { IsWithin MAX_END_REACH to }
    requires few { steps ≤ MAX_EDGES + 1 }
    ensures bend { result ≡ bend_of from to steps }
    ensures near { IsWithin MAX_MIDDLE_REACH result }
{
    let middle = midway(from, to);
    if from.down.abs_diff(to.down) <= from.across.abs_diff(to.across) {
        Place {
            across: middle.across,
            down: middle.down + BEND * steps,
        }
    } else {
        Place {
            across: middle.across + BEND * steps,
            down: middle.down,
        }
    }
}

/// The middle of a loop at a place, where so many lie nearer.
#[tactic(auto, unfolding(crate::specs::Courses::beside))]
fn beside(place: Place, steps: u32) -> Place
    requires near { IsWithin MAX_END_REACH place }
    requires few { steps ≤ MAX_EDGES + 1 }
    ensures place { result ≡ beside place steps }
    ensures near { IsWithin MAX_MIDDLE_REACH result }
{
    Place {
        across: place.across + LOOP * (steps + 1),
        down: place.down,
    }
}

/// Returns how an edge runs, where so many before it have the same ends.
#[tactic(auto, unfolding(crate::specs::Courses::course_of))]
pub fn course_of(plan: Plan, steps: u32, edge: (u16, u16)) -> Course
    requires plan { IsPlan plan }
    requires few { steps ≤ MAX_EDGES + 1 }
    ensures course { result ≡ course_of plan steps edge }
    ensures near { IsNear result }
{
    let from = plan.place_of_end(edge.0, edge.1);
    let to = plan.place_of_end(edge.1, edge.0);
    if edge.0 == edge.1 {
        let centre = beside(from, steps);
        Course::Around { centre }
    } else if steps == 0 {
        let place = part_way(plan, edge, from, to);
        Course::Straight { from, to, place }
    } else {
        let bend = bend_of(from, to, steps);
        let place = on_bow(plan, edge, from, bend, to);
        Course::Bent {
            from,
            bend,
            to,
            place,
        }
    }
}
