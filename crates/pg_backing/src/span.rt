//! What is known of a position's value.
ghost use Rattle.std.specs.Prelude.{◌≡◌};
ghost use Rattle.pg_backing.specs.Spans.{all_scores, greater, is_open, lesser, meet, reached};
ghost use Rattle.pg_backing.specs.Spans.{shows, span_of};

use pg_base::{Goal, Score, Side};
use pg_game::{at_least, reaches};

/// What is known of a position's value: it is at least `low` and at most `high`, in the order of
/// [`Score`].
#[derive(Clone, Copy, Debug, PartialEq, Eq)]
pub struct Span {
    /// The least that it can be.
    pub low: Score,
    /// The greatest that it can be.
    pub high: Score,
}

/// Returns the greater of two scores.
pub(crate) fn greater(a: Score, b: Score) -> Score
    ensures { result ≡ greater a b }
{
    if at_least(b, a) { a } else { b }
}

/// Returns the lesser of two scores.
pub(crate) fn lesser(a: Score, b: Score) -> Score
    ensures { result ≡ lesser a b }
{
    if at_least(b, a) { b } else { a }
}

impl Span {
    /// Returns what is known of any value: nothing.
    pub fn open() -> Span
        ensures { result ≡ all_scores }
    {
        Span {
            low: Score::YWins,
            high: Score::XWins,
        }
    }

    /// Returns what is known of a value if it is this one.
    pub fn of(score: Score) -> Span
        ensures { result ≡ span_of score score }
    {
        Span {
            low: score,
            high: score,
        }
    }

    /// Returns what is known of a value if the side reaches the goal.
    pub fn reached(side: Side, goal: Goal) -> Span
        ensures { result ≡ reached side goal }
    {
        match (side, goal) {
            (Side::X, Goal::Win) => Span {
                low: Score::XWins,
                high: Score::XWins,
            },
            (Side::X, Goal::Draw) => Span {
                low: Score::Draw,
                high: Score::XWins,
            },
            (Side::Y, Goal::Win) => Span {
                low: Score::YWins,
                high: Score::YWins,
            },
            (Side::Y, Goal::Draw) => Span {
                low: Score::YWins,
                high: Score::Draw,
            },
        }
    }

    /// Returns what is known of a value that is in both spans.
    pub fn meet(self, other: Span) -> Span
        ensures { result ≡ meet self other }
    {
        Span {
            low: greater(self.low, other.low),
            high: lesser(self.high, other.high),
        }
    }

    /// Returns whether each value in it reaches the side's goal.
    pub fn shows(self, side: Side, goal: Goal) -> bool
        ensures { result ≡ shows side goal self }
    {
        match side {
            Side::X => reaches(side, goal, self.low),
            Side::Y => reaches(side, goal, self.high),
        }
    }

    /// Returns whether more than one value is in it.
    pub fn is_open(self) -> bool
        ensures { result ≡ is_open self }
    {
        !at_least(self.high, self.low)
    }
}
