//! Layouts that can be copied.
ghost use Rattle.std.specs.Prelude.{◌≡◌, ◌≤◌, ◌<◌, IfNone, IfSome, length, take};
ghost use Rattle.pg_layout.specs.Layouts.{spots_of};
ghost use Rattle.pg_layout.specs.declared.chart.TheConstants.{MAX_CHARTED};

use crate::spot::Spot;

/// The most points of a chart, as many as a game on lines has at most.
pub const MAX_CHARTED: usize = 256;

/// The places of a board's points, of which there are at most `MAX_CHARTED`. It can be copied, as
/// what a picture shows can.
#[derive(Clone, Copy, Debug)]
pub struct Chart {
    count: u16,
    spots: [Spot; MAX_CHARTED],
}

/// Returns an array that begins with these places.
fn array_of(spots: &[Spot]) -> [Spot; MAX_CHARTED]
    requires { length spots.now ≤ MAX_CHARTED }
    ensures { take (length spots.now) result ≡ spots.now }
{
    let mut found = [Spot { column: 0, line: 0 }; MAX_CHARTED];
    for i in 0..spots.len() {
        found[i] = spots[i];
    }
    found
}

impl Chart {
    /// Makes the chart of these places, and returns None exactly if there are more than
    /// `MAX_CHARTED`.
    pub fn of(spots: &[Spot]) -> Option<Chart>
        ensures places { IfSome result (λ chart. spots_of chart ≡ spots.now) }
        ensures count { IfSome result (λ chart. chart.count ≡ length spots.now) }
        ensures none { IfNone result (MAX_CHARTED < length spots.now) }
    {
        if spots.len() > MAX_CHARTED {
            return None;
        }
        Some(Chart {
            count: spots.len() as u16,
            spots: array_of(spots),
        })
    }

    /// Returns how many points there are.
    pub fn points(&self) -> u16
        ensures { result ≡ self.now.count }
    {
        self.count
    }

    /// Returns the places in the order of the points.
    pub fn as_slice(&self) -> &[Spot]
        ensures { result.now ≡ spots_of self.now }
    {
        let count = usize::from(self.count).min(MAX_CHARTED);
        &self.spots[..count]
    }
}
