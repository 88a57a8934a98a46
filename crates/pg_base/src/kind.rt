//! The kinds of positional games.
ghost use Rattle.std.specs.Prelude.{◌≡◌};
ghost use Rattle.pg_base.specs.Kind.{kind_of, kind_word};

use std::fmt::{self, Display, Formatter, Write};

/// A kind of positional game (Hefetz, Krivelevich, Stojaković and Szabó, Positional Games; Lehman
/// 1964 for the switching game).
#[derive(Clone, Copy, Debug, PartialEq, Eq, Hash)]
pub enum Kind {
    /// X, Maker, wants to fill a line; Y, Breaker, wants to prevent it.
    MakerBreaker,
    /// Both sides want to fill a line first.
    MakerMaker,
    /// X, Avoider, must not fill a line; Y, Enforcer, wants X to fill one.
    AvoiderEnforcer,
    /// X, Short, wants to join two vertices by its edges; Y, Cut, wants to part them.
    Switching,
}

impl Kind {
    /// The kind that a word names, and None where it names none.
    pub fn from_word(word: &[u8]) -> Option<Kind>
        ensures { result ≡ kind_of word.now }
    {
        if Kind::MakerBreaker.word().as_bytes() == word {
            Some(Kind::MakerBreaker)
        } else if Kind::MakerMaker.word().as_bytes() == word {
            Some(Kind::MakerMaker)
        } else if Kind::AvoiderEnforcer.word().as_bytes() == word {
            Some(Kind::AvoiderEnforcer)
        } else if Kind::Switching.word().as_bytes() == word {
            Some(Kind::Switching)
        } else {
            None
        }
    }

    /// The word that names the kind in files and texts: `maker-breaker`, `maker-maker`,
    /// `avoider-enforcer` or `switching`.
    pub fn word(self) -> &'static str
        ensures { result.now ≡ kind_word self }
    {
        match self {
            Kind::MakerBreaker => "maker-breaker",
            Kind::MakerMaker => "maker-maker",
            Kind::AvoiderEnforcer => "avoider-enforcer",
            Kind::Switching => "switching",
        }
    }
}

/// Prints the kind's word.
impl Display for Kind {
    ghost use Rattle.std.specs.Prelude.{Some};
    ghost use Rattle.pg_base.specs.Kind.{kind_word};

    ghost output = { λ kind. Some (kind_word kind) };

    fn fmt<W: Write>(&self, f: &mut Formatter<W>) -> fmt::Result {
        f.write_str(self.word())
    }
}
