//! What paints are chosen for.
ghost use Rattle.std.specs.Prelude.{◌≡◌};
ghost use Rattle.pg_draw.specs.Shapes.{edge_paint, pair_paint, point_paint, set_paint, step_paint};

use pg_base::Side;
use pg_picture::Paint;
use pg_scene::Set;

/// The paint of a point of a side.
pub(crate) fn point_paint(mark: Option<Side>) -> Paint
    ensures { result ≡ point_paint mark }
{
    match mark {
        None => Paint::Free,
        Some(Side::X) => Paint::OfX,
        Some(Side::Y) => Paint::OfY,
    }
}

/// The paint of an edge of a side.
pub(crate) fn edge_paint(mark: Option<Side>) -> Paint
    ensures { result ≡ edge_paint mark }
{
    match mark {
        None => Paint::Edge,
        Some(Side::X) => Paint::EdgeOfX,
        Some(Side::Y) => Paint::EdgeOfY,
    }
}

/// The paint of the edges of a set.
pub(crate) fn set_paint(set: Set) -> Paint
    ensures { result ≡ set_paint set }
{
    match set {
        Set::First => Paint::First,
        Set::Second => Paint::Second,
    }
}

/// The paint of the step of that number, from 1: attacks and forced replies take turns.
pub(crate) fn step_paint(number: usize) -> Paint
    ensures { result ≡ step_paint number }
{
    if number % 2 == 1 {
        Paint::Step
    } else {
        Paint::Answer
    }
}

/// The paint of the pair, or of the part, of that number.
pub(crate) fn pair_paint(number: usize) -> Paint
    ensures { result ≡ pair_paint number }
{
    Paint::Pair((number % 8) as u8)
}
