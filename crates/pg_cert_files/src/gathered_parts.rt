//! The claims that parts make.

ghost use Rattle.std.specs.Prelude.{◌≡◌, IfOk, fold};
ghost use Rattle.pg_cert_files.specs.CertFile.{with_part, none_gathered, closed, listed};
ghost use Rattle.pg_cert_files.specs.Gatherer.{view};

use pg_cert::{Claim, Node, Nodes, Part};
use pg_cert_lines::Head;
use std::alloc::{AllocError, Global};

/// The claims of parts, in order: those that are whole, and one whose nodes are gathered.
#[derive(Debug, Drop)]
pub(crate) struct Gatherer {
    /// The claims that are whole.
    pub(crate) claims: Vec<Claim>,
    /// What the claim says whose nodes are gathered.
    pub(crate) head: Option<Head>,
    /// Its nodes so far.
    pub(crate) nodes: Vec<Node>,
}

impl Gatherer {
    /// Without any part.
    pub(crate) fn new(alloc: Global) -> Gatherer
        ensures { view result ≡ none_gathered }
    {
        Gatherer {
            claims: Vec::new(alloc),
            head: None,
            nodes: Vec::new(alloc),
        }
    }

    /// Ends the claim whose nodes are gathered.
    pub(crate) fn close(self) -> Result<Vec<Claim>, AllocError>
        ensures { IfOk result (λ claims. claims.items ≡ closed (view self)) }
    {
        let mut claims = self.claims;
        if let Some(head) = self.head {
            claims.push(Claim {
                turn: head.turn,
                side: head.side,
                goal: head.goal,
                nodes: Nodes::from_vec(self.nodes),
            })?;
        }
        Ok(claims)
    }

    /// The same with one part more, where there is one.
    pub(crate) fn with(self, alloc: Global, part: Option<Part>) -> Result<Gatherer, AllocError>
        ensures { IfOk result (λ g. view g ≡ fold with_part (view self) (listed part)) }
    {
        match part {
            None => Ok(self),
            Some(
                Part::Claim {
                    turn,
                    side,
                    goal,
                    ..
                },
            ) => Ok(Gatherer {
                claims: self.close()?,
                head: Some(Head { turn, side, goal }),
                nodes: Vec::new(alloc),
            }),
            Some(Part::Node(node)) => {
                let mut gatherer = self;
                gatherer.nodes.push(node.into_node())?;
                Ok(gatherer)
            }
        }
    }
}
