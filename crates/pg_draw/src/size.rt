//! The size of pictures.
ghost use Rattle.std.specs.Prelude.{◌≡◌, ◌≤◌, ◌<◌, length};
ghost use Rattle.pg_draw.specs.Prelude.{IsBoard, MAX_POINTS, MAX_VERTICES, MAX_BRIDGE_ROWS, IsPlan};
ghost use Rattle.pg_draw.specs.Prelude.{IsWithin, MAX_VECTORS};
ghost use Rattle.pg_draw.specs.Pictures.{bridge_reach, chart_reach, circle_reach, far_corner};
ghost use Rattle.pg_draw.specs.Pictures.{plan_reach, reach_of, row_reach, table_reach};
ghost use Rattle.pg_draw.specs.Shapes.{text_width, widest};

use crate::measures::{
    MAX_BOARD_REACH, MAX_CORNER_REACH, MAX_COUNTED_LETTERS, MAX_LETTER_WIDTH, MAX_TEXT_WIDTH,
    ROW_HIGH,
};
use crate::table::table_right;
use pg_captions::Text;
use pg_layout::Spot;
use pg_picture::Place;
use pg_places::{
    APART, CELL, Courses, HALF, MARGIN, MAX_ON_RING, Plan, ROW, TOP, columns_of, place_of_spot,
    radius_of,
};
use pg_scene::Board;

/// How far a circle reaches on which so many lie.
#[tactic(auto, unfolding(crate::specs::Pictures::circle_reach))]
fn circle_reach(count: u32) -> Place
    requires { count ≤ MAX_VERTICES }
    ensures place { result ≡ circle_reach count }
    ensures near { IsWithin MAX_BOARD_REACH result }
{
    let width = CELL + 2 * radius_of(count);
    Place {
        across: MARGIN + width,
        down: TOP + width,
    }
}

/// How far a board of Bridg-It reaches.
#[tactic(auto, unfolding(crate::specs::Pictures::bridge_reach))]
fn bridge_reach(rows: u32) -> Place
    requires { rows ≤ MAX_BRIDGE_ROWS }
    ensures place { result ≡ bridge_reach rows }
    ensures near { IsWithin MAX_BOARD_REACH result }
{
    Place {
        across: MARGIN + CELL + APART * (columns_of(rows) + 1),
        down: TOP + CELL + APART * rows,
    }
}

/// How far the vertices of a graph reach.
fn plan_reach(plan: Plan) -> Place
    requires { IsPlan plan }
    ensures place { result ≡ plan_reach plan }
    ensures near { IsWithin MAX_BOARD_REACH result }
{
    match plan.bridge {
        Some(rows) => bridge_reach(rows),
        None => circle_reach(plan.vertices),
    }
}

/// How far cells reach.
#[tactic(auto, unfolding(crate::specs::Pictures::row_reach))]
fn row_reach(width: u32, height: u32) -> Place
    requires width { width ≤ MAX_POINTS }
    requires height { height ≤ MAX_POINTS }
    ensures place { result ≡ row_reach width height }
    ensures near { IsWithin MAX_BOARD_REACH result }
{
    Place {
        across: MARGIN + CELL * width,
        down: TOP + CELL * height,
    }
}

/// How far the points of a layout reach.
fn chart_reach(spots: &[Spot]) -> Place
    ensures place { result ≡ chart_reach spots.now }
    ensures near { IsWithin MAX_BOARD_REACH result }
{
    let mut far = Place {
        across: MARGIN + CELL,
        down: TOP + CELL,
    };
    for spot in spots {
        let place = place_of_spot(*spot);
        far = Place {
            across: far.across.max(place.across + HALF),
            down: far.down.max(place.down + HALF),
        };
    }
    far
}

/// How far the rows of a table reach.
#[tactic(auto, unfolding(crate::specs::Pictures::table_reach))]
fn table_reach(rows: &[Text], target: &str) -> Place
    requires { length rows.now ≤ MAX_VECTORS }
    ensures place { result ≡ table_reach rows.now target.now }
    ensures near { IsWithin MAX_BOARD_REACH result }
{
    Place {
        across: table_right(rows, target),
        down: TOP + CELL + ROW_HIGH * rows.len() as u32,
    }
}

/// How far a board's cells, discs, vertices or rows reach.
fn reach_of(board: &Board) -> Place
    requires { IsBoard board.now }
    ensures place { result ≡ reach_of board.now }
    ensures near { IsWithin MAX_BOARD_REACH result }
{
    match board {
        Board::Grid { width, height } => row_reach(*width, *height),
        Board::Ring { points } => {
            if *points <= MAX_ON_RING {
                circle_reach(*points)
            } else {
                row_reach(ROW, *points / ROW + 1)
            }
        }
        Board::Laid { chart } => chart_reach(chart.as_slice()),
        Board::Graph {
            vertices,
            bridge,
            ..
        } => plan_reach(Plan {
            vertices: *vertices,
            bridge: *bridge,
        }),
        Board::Table { rows, target } => table_reach(rows.as_slice(), target.as_str()),
    }
}

/// How far a board reaches with its edges.
pub(crate) fn far_corner(board: &Board, courses: &Courses) -> Place
    requires { IsBoard board.now }
    ensures place { result ≡ far_corner board.now courses.now }
    ensures near { IsWithin MAX_CORNER_REACH result }
{
    let reach = reach_of(board);
    let far = courses.farthest();
    Place {
        across: reach.across.max(far.across + HALF),
        down: reach.down.max(far.down + HALF),
    }
}

/// How far words reach whose letters are so wide.
pub(crate) fn text_width(letter: u32, words: &str) -> u32
    requires { letter ≤ MAX_LETTER_WIDTH }
    ensures width { result ≡ text_width letter words.now }
    ensures small { result < MAX_TEXT_WIDTH }
{
    MARGIN + letter * words.len().min(MAX_COUNTED_LETTERS) as u32
}

/// How far the widest of these texts reaches, whose letters are so wide.
pub(crate) fn widest(letter: u32, texts: &[Text]) -> u32
    requires { letter ≤ MAX_LETTER_WIDTH }
    ensures width { result ≡ widest letter texts.now }
    ensures small { result < MAX_TEXT_WIDTH }
{
    let mut width = 0;
    for text in texts {
        width = width.max(text_width(letter, text.as_str()));
    }
    width
}
