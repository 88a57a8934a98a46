//! What the questions share: the turn at which one is asked, the parts of a row, and words for
//! answers.
ghost use Rattle.pg_game.specs.Game.{IsPosition};

use pg_base::Side;
use pg_game::{Game, Position};
use pg_plain::{part, word};

/// The beginning of a turn.
pub(crate) fn turn_of(g: &Game, turn: Side) -> Position
    ensures { IsPosition g.now result }
{
    g.with_turn(turn)
}

/// The side of which a row asks, and Y where it names none.
pub(crate) fn asked_side(row: &str) -> Side {
    pg_plain::side(word(part(row, 0), 4))
}

/// What is due in a row.
pub(crate) fn due(row: &str) -> &str {
    part(row, 4)
}

/// The word for whether something holds.
pub(crate) fn yes_or_no(holds: bool) -> &'static str {
    if holds { "yes" } else { "no" }
}

/// Whether the point is the one that the word tells, or there is none and the word is no number.
pub(crate) fn is_point(found: Option<u16>, word: &str) -> bool {
    match word.parse::<u16>() {
        Ok(v) => found == Some(v),
        Err(_) => found.is_none(),
    }
}
