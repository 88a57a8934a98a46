//! The choice among moves that were tried.
ghost use Rattle.std.specs.Prelude.{◌≡◌, find, option_map};
ghost use Rattle.pg_computer.specs.Prelude.{won_by};
ghost use Rattle.pg_computer.specs.Choices.{aim, choice_by, has, lacks};

use pg_base::{Score, Side};
use pg_moves::{Trial, are_known, best_score};

/// A point that the program claims.
#[derive(Clone, Copy, Debug, PartialEq, Eq)]
pub struct Choice {
    /// The point.
    pub point: u16,
    /// Whether it is proved that the value of the position stays.
    pub proved: bool,
}

/// Returns the score with which a side wins.
fn win_of(side: Side) -> Score
    ensures { result ≡ won_by side }
{
    match side {
        Side::X => Score::XWins,
        Side::Y => Score::YWins,
    }
}

/// Returns the first move after which the value is known and is this score.
fn first_with(trials: &[Trial], score: Score) -> Option<&Trial>
    ensures { option_map (λ trial. trial.now) result ≡ find (has score) trials.now }
{
    trials.iter().find(|trial| trial.worth.has_score(score))
}

/// Returns the first move after which the value isn't known to be this score.
fn first_without(trials: &[Trial], score: Score) -> Option<&Trial>
    ensures { option_map (λ trial. trial.now) result ≡ find (lacks score) trials.now }
{
    trials.iter().find(|trial| !trial.worth.has_score(score))
}

/// Returns the score that a move of the side has to be proved to keep the value: the best one if
/// the value after each move is known, and otherwise that of a win.
fn aim(side: Side, trials: &[Trial]) -> Score
    ensures { result ≡ aim side trials.now }
{
    if are_known(trials) {
        return best_score(side, trials);
    }
    win_of(side)
}

/// Returns what the side claims: the first move that is proved to keep the value; if there is none,
/// the first one that isn't known to lose, or else the lowest free point.
pub(crate) fn choice_by(side: Side, trials: &[Trial], lowest: u16) -> Choice
    ensures { result ≡ choice_by side trials.now lowest }
{
    if let Some(trial) = first_with(trials, aim(side, trials)) {
        return Choice {
            point: trial.point,
            proved: true,
        };
    }
    let point = match first_without(trials, win_of(side.other())) {
        Some(trial) => trial.point,
        None => lowest,
    };
    Choice {
        point,
        proved: false,
    }
}
