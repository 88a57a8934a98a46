//! Places on a circle, and of points that have no place of their own.
ghost use Rattle.std.specs.Prelude.{◌≡◌, ◌≤◌, ◌<◌, ◌^◌};
ghost use Rattle.pg_places.specs.Prelude.{MAX_VERTICES};
ghost use Rattle.pg_places.specs.Places.{IsWithin, part_of, place_after, place_on_circle};
ghost use Rattle.pg_places.specs.Places.{place_on_ring, radius_of};

use crate::grid::place_on_grid;
use crate::measures::{
    HALF, MARGIN, MAX_CIRCLE_REACH, MAX_END_REACH, MAX_ON_RING, MAX_RADIUS, MIN_RADIUS, QUARTER,
    ROW, SINE_OF_QUARTER, SPREAD, TOP, TURN,
};
use crate::sines::SINES;
use pg_picture::Place;

/// The sine of so many steps, times the radius.
fn part_of(radius: u32, part: usize) -> u32
    requires small { radius ≤ MAX_RADIUS }
    requires part { part ≤ QUARTER }
    ensures part { result ≡ part_of radius part }
    ensures small { result < 2 ^ 16 }
{
    radius * u32::from(SINES[part]) / SINE_OF_QUARTER
}

/// The place on a circle after so many steps, from the top and clockwise.
fn place_after(radius: u32, step: u32) -> Place
    requires small { radius ≤ MAX_RADIUS }
    ensures place { result ≡ place_after radius step }
    ensures near { IsWithin MAX_CIRCLE_REACH result }
{
    let sine = part_of(radius, (step % QUARTER) as usize);
    let cosine = part_of(radius, (QUARTER - step % QUARTER) as usize);
    let across = MARGIN + HALF + radius;
    let down = TOP + HALF + radius;
    match step / QUARTER {
        0 => Place {
            across: across + sine,
            down: down.saturating_sub(cosine),
        },
        1 => Place {
            across: across + cosine,
            down: down + sine,
        },
        2 => Place {
            across: across.saturating_sub(sine),
            down: down + cosine,
        },
        _ => Place {
            across: across.saturating_sub(cosine),
            down: down.saturating_sub(sine),
        },
    }
}

/// The radius of a circle on which so many lie.
pub fn radius_of(count: u32) -> u32
    requires { count ≤ MAX_VERTICES }
    ensures radius { result ≡ radius_of count }
    ensures small { result ≤ MAX_RADIUS }
{
    (SPREAD * count).max(MIN_RADIUS)
}

/// The place of one of so many on a circle.
#[tactic(auto, unfolding(crate::specs::Places::place_on_circle))]
pub fn place_on_circle(count: u32, index: u16) -> Place
    requires { count ≤ MAX_VERTICES }
    ensures place { result ≡ place_on_circle count index }
    ensures near { IsWithin MAX_CIRCLE_REACH result }
{
    place_after(radius_of(count), u32::from(index) * TURN / count.max(1))
}

/// The place of one of so many points that have no place of their own.
pub fn place_on_ring(points: u32, point: u16) -> Place
    ensures place { result ≡ place_on_ring points point }
    ensures near { IsWithin MAX_END_REACH result }
{
    if points <= MAX_ON_RING {
        place_on_circle(points, point)
    } else {
        place_on_grid(ROW, point)
    }
}
