//! Pairs of points.
ghost use Rattle.std.specs.Prelude.{◌≡◌};

use std::marker::Model;

/// Two points, of which a side answers one with the other.
#[derive(Clone, Copy, Debug, PartialEq, Eq, Hash)]
pub struct Pair {
    /// One point.
    pub a: u16,
    /// The other point.
    pub b: u16,
}

/// A list of pairs.
#[derive(Debug, Drop)]
pub struct Pairs {
    members: Vec<Pair>,
}

/// The pairs in order.
impl Model for Pairs {
    ghost use Rattle.std.specs.Prelude.{List};
    ghost use Rattle.pg_base.specs.declared.pair.Pair.{Pair};

    ghost Value = { List Pair };

    ghost view = { λ a. a.members.items };
}

impl Pairs {
    /// The list of these pairs.
    pub fn from_vec(members: Vec<Pair>) -> Pairs
        ensures { result ≡ members.items }
    {
        Pairs { members }
    }

    /// The pairs in order.
    pub fn as_slice(&self) -> &[Pair]
        ensures { result.now ≡ self.now }
    {
        self.members.as_slice()
    }
}
