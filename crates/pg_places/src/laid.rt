//! Places on layouts.
ghost use Rattle.std.specs.Prelude.{◌≡◌};
ghost use Rattle.pg_places.specs.Places.{IsWithin, place_of_spot, place_on_chart};

use crate::measures::{COLUMN, HALF, LINE, MARGIN, MAX_END_REACH, TOP};
use pg_layout::{Chart, Spot};
use pg_picture::Place;

/// Returns the place of a spot: a cell is four columns wide and two lines high.
#[tactic(auto, unfolding(crate::specs::Places::place_of_spot))]
pub fn place_of_spot(spot: Spot) -> Place
    ensures place { result ≡ place_of_spot spot }
    ensures near { IsWithin MAX_END_REACH result }
{
    Place {
        across: MARGIN + HALF + COLUMN * u32::from(spot.column),
        down: TOP + HALF + LINE * u32::from(spot.line),
    }
}

/// Returns the place of a point of a layout, and the corner of the board for what is none.
pub fn place_on_chart(chart: &Chart, point: u16) -> Place
    ensures place { result ≡ place_on_chart chart.now point }
    ensures near { IsWithin MAX_END_REACH result }
{
    match chart.as_slice().get(point as usize) {
        Some(spot) => place_of_spot(*spot),
        None => Place {
            across: MARGIN,
            down: TOP,
        },
    }
}
