//! What can be wrong with a node that may be turned or reflected.
ghost use Rattle.std.specs.Prelude.{◌≡◌};
ghost use Rattle.pg_unfold.specs.Flaw.{flaw_number};

/// What can be wrong with a node, the least first. The number of each is its code, I1 to I3.
#[derive(Clone, Copy, Debug, PartialEq, Eq)]
pub enum Flaw {
    /// I1: the node names a child whose number isn't below its own.
    Child,
    /// I2: the node is an image under a map that doesn't fit the game, or in a game without a grid.
    Map,
    /// I3: the node is an image whose marks, turn or number of points left aren't the image of the
    /// child's; or it is plain and a mark isn't a point of the game.
    Marks,
}

impl Flaw {
    /// The number of its code: 1 to 3.
    pub fn number(self) -> u8
        ensures { result ≡ flaw_number self }
    {
        match self {
            Flaw::Child => 1,
            Flaw::Map => 2,
            Flaw::Marks => 3,
        }
    }
}
