//! What has been filled, touched and taken.
ghost use Rattle.std.specs.Prelude.{◌≡◌, ◌<◌};
ghost use Rattle.std.specs.List.{All, list_any, list_all};
ghost use Rattle.pg_game.specs.Game.{is_touched, is_filled, is_full, lines_of};
ghost use Rattle.pg_game.specs.Judge.{filling_result, race_result};

use crate::game::Game;
use crate::position::Position;
use pg_base::{Line, MAX_MEMBERS, PointSet, Score};

/// Whether the set has all points of some line.
pub(crate) fn fills_some(points: &PointSet, lines: &[Line]) -> bool
    requires { All (All (λ v. v < MAX_MEMBERS)) lines.now }
    ensures { result ≡ list_any (is_filled points.now) lines.now }
{
    lines.iter().any(|line| points.has_all(line.as_slice()))
}

/// Whether the set has a point of each line.
fn touches_all(points: &PointSet, lines: &[Line]) -> bool
    requires { All (All (λ v. v < MAX_MEMBERS)) lines.now }
    ensures { result ≡ list_all (is_touched points.now) lines.now }
{
    lines.iter().all(|line| points.meets(line.as_slice()))
}

/// The result where X's line counts: `filled` where X has filled one, and `unfilled` where it has
/// filled none and can't any more, because each line has a point of Y or no point is free.
pub(crate) fn filling_result(
    g: &Game,
    p: &Position,
    filled: Score,
    unfilled: Score,
) -> Option<Score>
    ensures { result
        ≡ filling_result filled unfilled (list_any (is_filled p.now.x) (lines_of g.now))
        (list_all (is_touched p.now.y) (lines_of g.now)) (is_full g.now p.now) }
{
    let lines = g.lines();
    if fills_some(&p.x, lines) {
        Some(filled)
    } else if touches_all(&p.y, lines) || g.is_full(p) {
        Some(unfilled)
    } else {
        None
    }
}

/// The result where the side that fills a line first wins. Where both have, X's line is looked at
/// first.
pub(crate) fn race_result(g: &Game, p: &Position) -> Option<Score>
    ensures { result ≡ race_result (list_any (is_filled p.now.x) (lines_of g.now))
        (list_any (is_filled p.now.y) (lines_of g.now)) (is_full g.now p.now) }
{
    let lines = g.lines();
    if fills_some(&p.x, lines) {
        Some(Score::XWins)
    } else if fills_some(&p.y, lines) {
        Some(Score::YWins)
    } else if g.is_full(p) {
        Some(Score::Draw)
    } else {
        None
    }
}
