//! Why a claim of a connectivity game isn't valid.
ghost use Rattle.std.specs.Prelude.{◌≡◌};
ghost use Rattle.pg_span.specs.Flaw.{flaw_number};

/// Why a claim isn't valid.
#[derive(Clone, Copy, Debug, PartialEq, Eq)]
pub enum SpanFlaw {
    /// Trees are Y's, or parts X's.
    Side,
    /// The trees don't hold.
    Trees,
    /// The parts don't hold.
    Parts,
}

impl SpanFlaw {
    /// The number by which the flaw is named, 1 to 3.
    pub fn number(self) -> u8
        ensures { result ≡ flaw_number self }
    {
        match self {
            SpanFlaw::Side => 1,
            SpanFlaw::Trees => 2,
            SpanFlaw::Parts => 3,
        }
    }
}
