//! How many lines there may be.
ghost use Rattle.std.specs.Prelude.{◌≡◌};
ghost use Rattle.pg_captions.specs.Look.{are_drawn};

use pg_base::Line;

/// The most lines of a game whose lines are drawn.
pub const MAX_DRAWN_LINES: usize = 30;

/// The most lines of a legend, so that a picture stays within numbers that it can say.
pub const MAX_LEGEND_LINES: usize = 1000;

/// Returns whether there are few enough lines to draw them, if they are to be seen.
pub fn are_drawn(seen: bool, lines: &[Line]) -> bool
    ensures { result ≡ are_drawn seen lines.now }
{
    seen && lines.len() <= MAX_DRAWN_LINES
}
