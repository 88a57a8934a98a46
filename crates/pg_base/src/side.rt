//! The two sides.
ghost use Rattle.std.specs.Prelude.{◌≡◌};
ghost use Rattle.pg_base.specs.Side.{other, is_same_side, side_of, side_word};

use std::fmt::{self, Display, Formatter, Write};

/// One of the two sides. X is Maker, Avoider and Short, and Y is Breaker, Enforcer and Cut, in the
/// games of these names.
#[derive(Clone, Copy, Debug, PartialEq, Eq, PartialOrd, Ord, Hash)]
pub enum Side {
    /// The side for which `Score::XWins` is the best result.
    X,
    /// The side for which `Score::YWins` is the best result.
    Y,
}

impl Side {
    /// The other side, which moves after this one.
    pub fn other(self) -> Side
        ensures { result ≡ other self }
    {
        match self {
            Side::X => Side::Y,
            Side::Y => Side::X,
        }
    }

    /// Whether the two sides are one, as `==` says.
    pub fn is_same(self, side: Side) -> bool
        ensures { result ≡ is_same_side self side }
    {
        match self {
            Side::X => side == Side::X,
            Side::Y => side == Side::Y,
        }
    }

    /// The side that a word names, and None where it names none.
    pub fn from_word(word: &[u8]) -> Option<Side>
        ensures { result ≡ side_of word.now }
    {
        if Side::X.word().as_bytes() == word {
            Some(Side::X)
        } else if Side::Y.word().as_bytes() == word {
            Some(Side::Y)
        } else {
            None
        }
    }

    /// The word that names the side in files and texts: `x` or `y`.
    pub fn word(self) -> &'static str
        ensures { result.now ≡ side_word self }
    {
        match self {
            Side::X => "x",
            Side::Y => "y",
        }
    }
}

/// Prints the side's word.
impl Display for Side {
    ghost use Rattle.std.specs.Prelude.{Some};
    ghost use Rattle.pg_base.specs.Side.{side_word};

    ghost output = { λ side. Some (side_word side) };

    fn fmt<W: Write>(&self, f: &mut Formatter<W>) -> fmt::Result {
        f.write_str(self.word())
    }
}
