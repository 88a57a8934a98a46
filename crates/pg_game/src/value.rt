//! What a score is worth to a side.
ghost use Rattle.std.specs.Prelude.{◌≡◌};
ghost use Rattle.pg_game.specs.Value.{reaches};

use pg_base::{Goal, Score, Side};

/// Whether the score reaches the goal for the side.
pub fn reaches(side: Side, goal: Goal, score: Score) -> bool
    ensures { result ≡ reaches side goal score }
{
    match (side, goal) {
        (Side::X, Goal::Win) => matches!(score, Score::XWins),
        (Side::X, Goal::Draw) => !matches!(score, Score::YWins),
        (Side::Y, Goal::Win) => matches!(score, Score::YWins),
        (Side::Y, Goal::Draw) => !matches!(score, Score::XWins),
    }
}
