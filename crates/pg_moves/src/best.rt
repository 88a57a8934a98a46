//! The best of the moves that were tried.
ghost use Rattle.std.specs.Prelude.{◌≡◌, IfOk};
ghost use Rattle.pg_moves.specs.Prelude.{best, list_any};
ghost use Rattle.pg_moves.specs.Best.{all_known, best_by, best_tried, has_score, known_scores};
ghost use Rattle.pg_moves.specs.Best.{list_of, points_with};

use crate::trial::Trial;
use pg_base::{Memory, Score, Side};
use std::alloc::Global;

/// Returns whether the value after one of the moves is known and is this score.
fn any_has(trials: &[Trial], score: Score) -> bool
    ensures { result ≡ list_any (λ trial. has_score score trial.worth) trials.now }
{
    trials.iter().any(|trial| trial.worth.has_score(score))
}

/// Returns whether the value after each move is known.
pub fn are_known(trials: &[Trial]) -> bool
    ensures { result ≡ all_known trials.now }
{
    trials.iter().all(|trial| trial.worth.is_known())
}

/// Returns the best score for the side, by which scores there are: of none the worst.
fn best_of(side: Side, x_wins: bool, draws: bool, y_wins: bool) -> Score
    ensures { result ≡ best_by side x_wins draws y_wins }
{
    match side {
        Side::X if x_wins => Score::XWins,
        Side::Y if y_wins => Score::YWins,
        _ if draws => Score::Draw,
        Side::X => Score::YWins,
        Side::Y => Score::XWins,
    }
}

/// Returns the best of the known values for the side: of none the worst.
pub fn best_score(side: Side, trials: &[Trial]) -> Score
    ensures { result ≡ best side (known_scores trials.now) }
{
    let x_wins = any_has(trials, Score::XWins);
    let draws = any_has(trials, Score::Draw);
    let y_wins = any_has(trials, Score::YWins);
    best_of(side, x_wins, draws, y_wins)
}

/// Returns the points of the moves after which the value is known and is this score.
fn points_with(alloc: Global, trials: &[Trial], score: Score) -> Result<Vec<u16>, Memory>
    ensures { IfOk result (λ points. points.items ≡ points_with score trials.now) }
{
    let mut points = Vec::new(alloc);
    for trial in trials {
        if trial.worth.has_score(score) {
            points.push(trial.point)?;
        }
    }
    Ok(points)
}

/// Returns the moves of the side after which the value is best for it, or None unless the value
/// after every move is known.
pub(crate) fn best_moves(
    alloc: Global,
    side: Side,
    trials: &[Trial],
) -> Result<Option<Vec<u16>>, Memory>
    ensures { IfOk result (λ points. list_of points ≡ best_tried side trials.now) }
{
    if !are_known(trials) {
        return Ok(None);
    }
    let points = points_with(alloc, trials, best_score(side, trials))?;
    Ok(Some(points))
}
