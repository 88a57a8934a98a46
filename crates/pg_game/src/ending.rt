//! How a game of a kind ends, and who attacks and who defends in it.
ghost use Rattle.std.specs.Prelude.{◌≡◌, ◌≢◌, ◌≤◌, Bool};
ghost use Rattle.pg_base.specs.declared.kind.Kind.TheVariants.{Switching};
ghost use Rattle.pg_game.specs.Avoider.{x_takes_last};
ghost use Rattle.pg_game.specs.Decided.{at_least, defender};
ghost use Rattle.pg_game.specs.Game.{is_over_by, outcome_by};
ghost use Rattle.pg_game.specs.Pairs.{breaker_of};
ghost use Rattle.pg_game.specs.Threat.{may_attack};

use crate::bounds::MAX_BIAS;
use pg_base::{Kind, Score, Side};

/// Whether a game on lines is over, by what X and Y have filled, whether Y has a point of every
/// line, and whether no point is free.
pub fn is_over_by(kind: Kind, x_filled: bool, y_filled: bool, touched: bool, full: bool) -> bool
    ensures { (joined joinable : Bool) → kind ≢ Switching
        → result ≡ is_over_by kind x_filled y_filled touched full joined joinable }
{
    match kind {
        Kind::MakerMaker => x_filled || y_filled || full,
        _ => x_filled || touched || full,
    }
}

/// The outcome of a game on lines that is over, by what X and Y have filled.
pub fn outcome_by(kind: Kind, x_filled: bool, y_filled: bool) -> Score
    ensures { (joined : Bool) → kind ≢ Switching
        → result ≡ outcome_by kind x_filled y_filled joined }
{
    match kind {
        Kind::MakerBreaker if x_filled => Score::XWins,
        Kind::AvoiderEnforcer if !x_filled => Score::XWins,
        Kind::MakerMaker if x_filled => Score::XWins,
        Kind::MakerMaker if !y_filled => Score::Draw,
        _ => Score::YWins,
    }
}

/// Whether the second score is at least the first.
pub fn at_least(wanted: Score, score: Score) -> bool
    ensures { result ≡ at_least wanted score }
{
    match wanted {
        Score::XWins => score == Score::XWins,
        Score::Draw => score != Score::YWins,
        Score::YWins => true,
    }
}

/// The side whose potential and private pairs speak to the question whether X reaches the score.
pub fn defender(kind: Kind, question: Score) -> Side
    ensures { result ≡ defender kind question }
{
    match (kind, question) {
        (Kind::AvoiderEnforcer, _) => Side::X,
        (Kind::MakerMaker, Score::XWins) => Side::Y,
        (Kind::MakerMaker, _) => Side::X,
        _ => Side::Y,
    }
}

/// Whether the side wins by filling a line: Maker, and in Maker-Maker either side.
pub fn may_attack(kind: Kind, side: Side) -> bool
    ensures { result ≡ may_attack kind side }
{
    match (kind, side) {
        (Kind::MakerBreaker, Side::X) => true,
        (Kind::MakerMaker, _) => true,
        _ => false,
    }
}

/// The side whose points make a line harmless to the claimer: Y's in Avoider-Enforcer, where X
/// avoids lines, and else the claimer's own.
pub fn breaker_of(kind: Kind, side: Side) -> Side
    ensures { result ≡ breaker_of kind side }
{
    match kind {
        Kind::AvoiderEnforcer => Side::Y,
        Kind::MakerBreaker | Kind::MakerMaker | Kind::Switching => side,
    }
}

/// Whether X takes the last of so many free points, where Y claims `bias` points a turn and a side
/// is to move and still claims so many in its turn.
pub fn x_takes_last(bias: u16, turn: Side, left: u16, free: u16) -> bool
    requires { bias ≤ MAX_BIAS }
    ensures { result ≡ x_takes_last bias turn left free }
{
    match turn {
        Side::X => 0 < free && (free - 1) % (bias + 1) == 0,
        Side::Y => left < free && (free - left - 1) % (bias + 1) == 0,
    }
}
