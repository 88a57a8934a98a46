//! What a side claims of a position.
ghost use Rattle.std.specs.Prelude.{◌≡◌};
ghost use Rattle.pg_base.specs.Goal.{goal_of, goal_word};

use std::fmt::{self, Display, Formatter, Write};

/// What a side claims of a position: side X reaches `Win` where the score is `XWins`, and `Draw`
/// where it is `Draw` or `XWins`; side Y the same with the two ends exchanged.
#[derive(Clone, Copy, Debug, PartialEq, Eq, PartialOrd, Ord, Hash)]
pub enum Goal {
    /// The side wins.
    Win,
    /// The side doesn't lose.
    Draw,
}

impl Goal {
    /// The goal that a word names, and None where it names none.
    pub fn from_word(word: &[u8]) -> Option<Goal>
        ensures { result ≡ goal_of word.now }
    {
        if Goal::Win.word().as_bytes() == word {
            Some(Goal::Win)
        } else if Goal::Draw.word().as_bytes() == word {
            Some(Goal::Draw)
        } else {
            None
        }
    }

    /// The word that names the goal in files and texts: `win` or `draw`.
    pub fn word(self) -> &'static str
        ensures { result.now ≡ goal_word self }
    {
        match self {
            Goal::Win => "win",
            Goal::Draw => "draw",
        }
    }
}

/// Prints the goal's word.
impl Display for Goal {
    ghost use Rattle.std.specs.Prelude.{Some};
    ghost use Rattle.pg_base.specs.Goal.{goal_word};

    ghost output = { λ claimed. Some (goal_word claimed) };

    fn fmt<W: Write>(&self, f: &mut Formatter<W>) -> fmt::Result {
        f.write_str(self.word())
    }
}
