//! Where the vertices of graphs lie.
ghost use Rattle.std.specs.Prelude.{◌≡◌};
ghost use Rattle.pg_places.specs.Places.{IsPlan, IsWithin, place_of_end};

use crate::bridge::place_on_bridge;
use crate::circle::place_on_circle;
use crate::measures::MAX_END_REACH;
use pg_picture::Place;

/// What the places of a graph's vertices rest on.
#[derive(Clone, Copy, Debug, PartialEq, Eq)]
pub struct Plan {
    /// How many vertices there are.
    pub vertices: u32,
    /// The rows of the Bridg-It board that the graph is, where it is one.
    pub bridge: Option<u32>,
}

impl Plan {
    /// Where a vertex lies from which an edge leads to the other.
    pub fn place_of_end(self, vertex: u16, other: u16) -> Place
        requires { IsPlan self }
        ensures place { result ≡ place_of_end self vertex other }
        ensures near { IsWithin MAX_END_REACH result }
    {
        match self.bridge {
            Some(rows) => place_on_bridge(rows, vertex, other),
            None => place_on_circle(self.vertices, vertex),
        }
    }
}
