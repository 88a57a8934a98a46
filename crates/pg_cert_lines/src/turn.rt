//! The turn that a node line says.

ghost use Rattle.std.specs.Prelude.{◌≡◌};
ghost use Rattle.pg_cert_lines.specs.Form.{turn_of};

use pg_base::Side;

/// The sign of Y before a number of points.
const LETTER: u8 = b'y';

/// The digit from which the value of a digit counts.
const ZERO: u8 = b'0';

/// The digit of the fewest points that are several.
const FEWEST: u8 = b'2';

/// The digit of the most points that Y claims in a turn.
const MOST: u8 = b'7';

/// The side to move, and how many points it still claims.
#[derive(Clone, Copy, Debug, PartialEq, Eq)]
pub struct Turn {
    /// The side to move.
    pub side: Side,
    /// How many points it still claims in this turn: 1, and for Y up to 7.
    pub left: u8,
}

/// The turn that a word names: `x` or `y` for one point, `y2` to `y7` for several points of Y.
pub fn turn_of(word: &[u8]) -> Option<Turn>
    ensures { result ≡ turn_of word.now }
{
    match word {
        b"x" => Some(Turn {
            side: Side::X,
            left: 1,
        }),
        b"y" => Some(Turn {
            side: Side::Y,
            left: 1,
        }),
        [LETTER, digit @ FEWEST..=MOST] => Some(Turn {
            side: Side::Y,
            left: *digit - ZERO,
        }),
        _ => None,
    }
}
