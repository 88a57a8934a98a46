//! What can be wrong with a claim.
ghost use Rattle.std.specs.Prelude.{◌≡◌};
ghost use Rattle.pg_gf2.specs.Check.{flaw_number};

/// What can be wrong with a claim of a game on vectors, the least first. The number of each is its
/// code, V1 to V5.
#[derive(Clone, Copy, Debug, PartialEq, Eq, PartialOrd, Ord, Hash)]
pub enum VecFlaw {
    /// V1: the version isn't 1, the claim hasn't exactly one node, or the body isn't trees or cuts.
    Form,
    /// V2: the node's marks aren't the game's, its turn isn't the claim's, or its `left` isn't 1.
    Position,
    /// V3: trees are claimed for Y, cuts for X, or the goal isn't a win.
    Claimer,
    /// V4: the sets aren't trees.
    Trees,
    /// V5: the sets aren't cuts.
    Cuts,
}

impl VecFlaw {
    /// The number of its code: 1 to 5.
    pub fn number(self) -> u8
        ensures { result ≡ flaw_number self }
    {
        match self {
            VecFlaw::Form => 1,
            VecFlaw::Position => 2,
            VecFlaw::Claimer => 3,
            VecFlaw::Trees => 4,
            VecFlaw::Cuts => 5,
        }
    }
}

/// Why a certificate isn't accepted.
#[derive(Clone, Copy, Debug, PartialEq, Eq)]
pub enum VecFault {
    /// A claim is faulty.
    Reject {
        /// The first faulty claim, counted from 0.
        claim: u32,
        /// The faulty node, counted from 0: always the first, since no other flaw is looked for in
        /// a claim of several.
        node: u32,
        /// The least of the claim's flaws.
        why: VecFlaw,
    },
    /// No memory is left.
    Memory,
}
