//! The names of sides, of games and of results.
ghost use Rattle.std.specs.Prelude.{◌≡◌};
ghost use Rattle.pg_captions.specs.Words.{goal_words, kind_title, side_name};

use pg_base::{Goal, Kind, Side};

/// Returns the name of a side in games of a kind.
pub fn side_name(kind: Kind, side: Side) -> &'static str
    ensures { result.now ≡ side_name kind side }
{
    match (kind, side) {
        (Kind::MakerBreaker, Side::X) => "Maker",
        (Kind::MakerBreaker, Side::Y) => "Breaker",
        (Kind::MakerMaker, Side::X) => "X",
        (Kind::MakerMaker, Side::Y) => "Y",
        (Kind::AvoiderEnforcer, Side::X) => "Avoider",
        (Kind::AvoiderEnforcer, Side::Y) => "Enforcer",
        (Kind::Switching, Side::X) => "Short",
        (Kind::Switching, Side::Y) => "Cut",
    }
}

/// The name of a game of a kind.
pub(crate) fn kind_title(kind: Kind) -> &'static str
    ensures { result.now ≡ kind_title kind }
{
    match kind {
        Kind::MakerBreaker => "Maker-Breaker game",
        Kind::MakerMaker => "Maker-Maker game",
        Kind::AvoiderEnforcer => "Avoider-Enforcer game",
        Kind::Switching => "Switching game",
    }
}

/// What a side reaches.
pub(crate) fn goal_words(goal: Goal) -> &'static str
    ensures { result.now ≡ goal_words goal }
{
    match goal {
        Goal::Win => " wins",
        Goal::Draw => " doesn't lose",
    }
}
