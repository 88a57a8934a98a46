//! What can be wrong with a node.
ghost use Rattle.std.specs.Prelude.{◌≡◌};
ghost use Rattle.pg_cert.specs.NodeFault.{fault_number};

/// What can be wrong with a node of a claim, the least first. The number of each is its code, J1 to
/// J13.
#[derive(Clone, Copy, Debug, PartialEq, Eq, PartialOrd, Ord, Hash)]
pub enum NodeFault {
    /// J1: the body names a child whose number isn't below the node's own.
    Child,
    /// J2: a mark isn't a point of the game, or the turn claims more points than its side may, or
    /// the child of a move isn't the position after it.
    Marks,
    /// J3: the wrong side is to move for the body.
    Turn,
    /// J4: a move of a point that isn't free, or replies that aren't exactly the free points.
    Moves,
    /// J5: the game isn't over or its outcome doesn't reach the goal; or it is over and the body
    /// moves on.
    End,
    /// J6: the pairs don't meet their condition.
    Pairs,
    /// J7: the potential doesn't meet its condition.
    Potential,
    /// J8: the sets of edges aren't trees for Short.
    Trees,
    /// J9: the sets of edges aren't cuts for Cut.
    Cuts,
    /// J10: the points aren't a threat line.
    Threat,
    /// J11: the claim's last node isn't the game's marks at the beginning of the claim's turn.
    Root,
    /// J12: the body isn't allowed for the kind of the game, the bias, the side and the goal.
    Body,
    /// J13: the position is worse for the claimer than that of the child of `weaker`.
    Weaker,
}

impl NodeFault {
    /// The number of its code: 1 to 13.
    pub fn number(self) -> u8
        ensures { result ≡ fault_number self }
    {
        match self {
            NodeFault::Child => 1,
            NodeFault::Marks => 2,
            NodeFault::Turn => 3,
            NodeFault::Moves => 4,
            NodeFault::End => 5,
            NodeFault::Pairs => 6,
            NodeFault::Potential => 7,
            NodeFault::Trees => 8,
            NodeFault::Cuts => 9,
            NodeFault::Threat => 10,
            NodeFault::Root => 11,
            NodeFault::Body => 12,
            NodeFault::Weaker => 13,
        }
    }
}
