//! Places beside others.
ghost use Rattle.std.specs.Prelude.{◌≡◌, ◌≤◌};
ghost use Rattle.pg_places.specs.Places.{IsWithin, lower, lower_right, upper_left, upper_right};

use crate::measures::{MAX_MIDDLE_REACH, MAX_SHIFT};
use pg_picture::Place;

/// The place so far up and to the left.
pub fn upper_left(place: Place, left: u32, up: u32) -> Place
    ensures { result ≡ upper_left place left up }
{
    Place {
        across: place.across.saturating_sub(left),
        down: place.down.saturating_sub(up),
    }
}

/// The place so far up and to the right.
pub fn upper_right(place: Place, right: u32, up: u32) -> Place
    requires near { IsWithin MAX_MIDDLE_REACH place }
    requires right { right ≤ MAX_SHIFT }
    ensures { result ≡ upper_right place right up }
{
    Place {
        across: place.across + right,
        down: place.down.saturating_sub(up),
    }
}

/// The place so far down and to the right.
pub fn lower_right(place: Place, right: u32, down: u32) -> Place
    requires near { IsWithin MAX_MIDDLE_REACH place }
    requires right { right ≤ MAX_SHIFT }
    requires down { down ≤ MAX_SHIFT }
    ensures { result ≡ lower_right place right down }
{
    Place {
        across: place.across + right,
        down: place.down + down,
    }
}

/// The place so far down.
pub fn lower(place: Place, down: u32) -> Place
    requires near { IsWithin MAX_MIDDLE_REACH place }
    requires down { down ≤ MAX_SHIFT }
    ensures { result ≡ lower place down }
{
    Place {
        across: place.across,
        down: place.down + down,
    }
}
