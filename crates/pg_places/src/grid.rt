//! Places on boards of squares, and in rows.
ghost use Rattle.std.specs.Prelude.{◌≡◌};
ghost use Rattle.pg_places.specs.Places.{IsWithin, place_on_grid};

use crate::measures::{CELL, HALF, MARGIN, MAX_END_REACH, TOP};
use pg_picture::Place;

/// The middle of the cell of a point on a board of squares so wide.
#[tactic(auto, unfolding(crate::specs::Places::place_on_grid))]
pub fn place_on_grid(width: u32, point: u16) -> Place
    ensures place { result ≡ place_on_grid width point }
    ensures near { IsWithin MAX_END_REACH result }
{
    let width = width.max(1);
    let point = u32::from(point);
    Place {
        across: MARGIN + HALF + CELL * (point % width),
        down: TOP + HALF + CELL * (point / width),
    }
}
