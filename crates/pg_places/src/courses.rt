//! How all edges of a graph run.
ghost use Rattle.std.specs.Prelude.{◌≡◌, ◌≤◌, length, slice_get, IfOk, []};
ghost use Rattle.pg_places.specs.Prelude.{MAX_EDGES};
ghost use Rattle.pg_places.specs.Places.{IsPlan, IsWithin};
ghost use Rattle.pg_places.specs.Courses.{beyond, courses_behind, farthest, place_of_edge};

use crate::course::{Course, course_of, middle_of, parallels, place_on};
use crate::measures::{MARGIN, MAX_MIDDLE_REACH, TOP};
use crate::vertices::Plan;
use pg_base::Memory;
use pg_picture::Place;
use std::alloc::Global;
use std::marker::Model;

/// The farther of two places, in either direction.
fn beyond(a: Place, b: Place) -> Place
    ensures { result ≡ beyond a b }
{
    Place {
        across: a.across.max(b.across),
        down: a.down.max(b.down),
    }
}

/// How each edge of a graph runs.
#[derive(Debug, Drop)]
pub struct Courses {
    members: Vec<Course>,
}

/// The courses in order.
impl Model for Courses {
    ghost use Rattle.std.specs.Prelude.{List};
    ghost use Rattle.std.specs.List.{All};
    ghost use Rattle.pg_places.specs.Courses.{IsNear};
    ghost use Rattle.pg_places.specs.declared.course.Course.{Course};

    ghost Value = { List Course };

    ghost view = { λ a. a.members.items };

    ghost invariant = { λ a. All IsNear a.members.items };
}

impl Courses {
    /// No courses.
    pub fn none(alloc: Global) -> Courses
        ensures { result ≡ [] }
    {
        Courses {
            members: Vec::new(alloc),
        }
    }

    /// The courses of edges with these ends.
    pub fn of_edges(alloc: Global, plan: Plan, ends: &[(u16, u16)]) -> Result<Courses, Memory>
        requires plan { IsPlan plan }
        requires few { length ends.now ≤ MAX_EDGES }
        ensures { IfOk result (λ courses. courses ≡ courses_behind plan [] ends.now) }
    {
        let mut members = Vec::new(alloc);
        for i in 0..ends.len() {
            let edge = ends[i];
            members.push(course_of(plan, parallels(&ends[..i], edge), edge))?;
        }
        Ok(Courses { members })
    }

    /// How an edge runs.
    pub fn at(&self, edge: u16) -> Option<Course>
        ensures { result ≡ slice_get self.now edge }
    {
        self.members.get(edge as usize).copied()
    }

    /// The place of an edge: where its number and its rings stand.
    pub fn place_of(&self, edge: u16) -> Place
        ensures place { result ≡ place_of_edge self.now edge }
        ensures near { IsWithin MAX_MIDDLE_REACH result }
    {
        match self.members.get(edge as usize) {
            Some(course) => place_on(*course),
            None => Place {
                across: MARGIN,
                down: TOP,
            },
        }
    }

    /// How far the places and the middles of edges reach.
    pub fn farthest(&self) -> Place
        ensures place { result ≡ farthest self.now }
        ensures near { IsWithin MAX_MIDDLE_REACH result }
    {
        let mut far = Place { across: 0, down: 0 };
        for course in &self.members {
            far = beyond(beyond(far, place_on(*course)), middle_of(*course));
        }
        far
    }
}
