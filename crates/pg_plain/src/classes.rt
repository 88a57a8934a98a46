//! The class of a switching game, by its values.
ghost use Rattle.std.specs.Prelude.{◌≡◌, option_map};
ghost use Rattle.pg_plain.specs.Prelude.{class_by, class_of, IsMadeForGame};
ghost use Rattle.pg_plain.specs.Classes.{class_named};

use crate::best_play::value;
use pg_base::{Score, Side};
use pg_game::{Game, Judge};

/// Who wins a switching game (Lehman, 1964).
#[derive(Clone, Copy, Debug, PartialEq, Eq)]
pub enum Class {
    /// Short wins, whoever begins.
    Short,
    /// Cut wins, whoever begins.
    Cut,
    /// The side that begins wins.
    First,
}

/// The class by the values with X and with Y to move.
fn by_values(with_x: Score, with_y: Score) -> Option<Class>
    ensures { option_map class_named result ≡ class_by with_x with_y }
{
    match (with_x, with_y) {
        (Score::XWins, Score::XWins) => Some(Class::Short),
        (Score::YWins, Score::YWins) => Some(Class::Cut),
        (Score::XWins, Score::YWins) => Some(Class::First),
        (Score::XWins, Score::Draw) | (Score::Draw | Score::YWins, _) => None,
    }
}

/// The class of the game at its marks, by its values with each side to move. There is none where
/// the side to move would lose both times, which no switching game shows.
pub fn class_of(judge: &mut Judge, g: &Game) -> Option<Class>
    requires { IsMadeForGame judge.old g.now }
    ensures class { option_map class_named result ≡ class_of g.now }
    ensures kept { judge.new ≡ judge.old }
{
    let with_x = value(judge, g, &g.with_turn(Side::X));
    let with_y = value(judge, g, &g.with_turn(Side::Y));
    by_values(with_x, with_y)
}
