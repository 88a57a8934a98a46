//! What is shown of a game or of a node.
ghost use Rattle.std.specs.Prelude.{◌≡◌};
ghost use Rattle.pg_captions.specs.Look.{seen_at, whole_look};

use pg_base::PointSet;
use pg_game::Position;
use pg_layout::Chart;

/// How much a legend says.
#[derive(Clone, Copy, Debug, PartialEq, Eq)]
pub enum Legend {
    /// Nothing.
    Absent,
    /// What the body of a node says.
    OfBody,
    /// Everything.
    Whole,
}

/// What is shown of a game or of a node, as options say it.
#[derive(Clone, Copy, Debug)]
pub struct Look {
    /// Whether points, edges and vertices have their numbers.
    pub numbers: bool,
    /// Whether lines are drawn, if there are few enough.
    pub lines: bool,
    /// How much the legend says.
    pub legend: Legend,
    /// The width in pixels at which the picture is shown; none if the viewer chooses.
    pub size: Option<u32>,
    /// How many boards without marks are drawn in place of a game; none for the game itself.
    pub blank: Option<u32>,
    /// Where the points of a game on lines without a grid lie, if there is a place for each; a ring
    /// if none is given, or for another number of points.
    pub layout: Option<Chart>,
}

impl Look {
    /// Returns what is shown without options: everything, of the game itself.
    pub fn whole() -> Look
        ensures { result ≡ whole_look }
    {
        Look {
            numbers: true,
            lines: true,
            legend: Legend::Whole,
            size: None,
            blank: None,
            layout: None,
        }
    }
}

/// Returns what is seen of a position: without its marks, if the boards are to be blank.
pub fn seen_at(blank: Option<u32>, p: Position) -> Position
    ensures { result ≡ seen_at blank p }
{
    match blank {
        None => p,
        Some(_) => Position {
            x: PointSet::empty(),
            y: PointSet::empty(),
            turn: p.turn,
            left: p.left,
        },
    }
}
