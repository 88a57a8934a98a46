//! Replies to a move.
ghost use Rattle.std.specs.Prelude.{◌≡◌};

use std::marker::Model;

/// A move of the other side, and the node from which the claimer goes on.
#[derive(Clone, Copy, Debug, PartialEq, Eq)]
pub struct Reply {
    /// The point that the other side takes: 0 to 1,023.
    pub point: u16,
    /// The number of the node that follows: 0 to 99,999.
    pub child: u32,
}

/// A list of replies.
#[derive(Debug, Drop)]
pub struct Replies {
    members: Vec<Reply>,
}

/// The replies in order.
impl Model for Replies {
    ghost use Rattle.std.specs.Prelude.{List};
    ghost use Rattle.pg_cert.specs.declared.reply.Reply.{Reply};

    ghost Value = { List Reply };

    ghost view = { λ a. a.members.items };
}

impl Replies {
    /// The list of these replies.
    pub fn from_vec(members: Vec<Reply>) -> Replies
        ensures { result ≡ members.items }
    {
        Replies { members }
    }

    /// The replies in order.
    pub fn as_slice(&self) -> &[Reply]
        ensures { result.now ≡ self.now }
    {
        self.members.as_slice()
    }
}
