//! Lists of points.
ghost use Rattle.std.specs.Prelude.{◌≡◌};

use std::marker::Model;

/// A list of points, in any order.
#[derive(Debug, Drop)]
pub struct Points {
    members: Vec<u16>,
}

/// The points in order.
impl Model for Points {
    ghost use Rattle.std.specs.Prelude.{ℕ, List};

    ghost Value = { List ℕ };

    ghost view = { λ a. a.members.items };
}

impl Points {
    /// The list of these points.
    pub fn from_vec(members: Vec<u16>) -> Points
        ensures { result ≡ members.items }
    {
        Points { members }
    }

    /// The points in order.
    pub fn as_slice(&self) -> &[u16]
        ensures { result.now ≡ self.now }
    {
        self.members.as_slice()
    }
}
