//! The names of nodes.
ghost use Rattle.std.specs.Prelude.{◌≡◌};
ghost use Rattle.pg_cert.specs.Limits.{IsWithinLimits};
ghost use Rattle.pg_drawing.specs.Orders.{chosen, chosen_claim, node_named};

use pg_cert::Cert;
use pg_text::{number, two_parts};

/// The sign between the number of a claim and that of a node.
pub const DOT: u8 = b'.';

/// A node of a certificate.
#[derive(Clone, Copy, Debug, PartialEq, Eq)]
pub struct NodeName {
    /// The number of its claim, from 0.
    pub claim: u32,
    /// Its number in the claim, from 0.
    pub node: u32,
}

/// The node that a word names: `K` is node K of the first claim, and `C.K` node K of claim C.
pub(crate) fn node_named(word: &[u8]) -> Option<NodeName>
    ensures { result ≡ node_named word.now }
{
    match two_parts(DOT, word) {
        None => {
            let node = number(word)?;
            Some(NodeName { claim: 0, node })
        }
        Some((first, second)) => {
            let claim = number(first)?;
            let node = number(second)?;
            Some(NodeName { claim, node })
        }
    }
}

/// The node that is named, or else the root of the first claim, its last node.
pub(crate) fn chosen(cert: &Cert, name: Option<NodeName>) -> NodeName
    requires { IsWithinLimits cert.now }
    ensures { result ≡ chosen cert.now name }
{
    if let Some(name) = name {
        return name;
    }
    let first = &cert.claims.as_slice()[0];
    NodeName {
        claim: 0,
        node: first.nodes.as_slice().len() as u32 - 1,
    }
}

/// The node that is named, or else that of the first claim, where each claim has one node,
/// number 0.
pub(crate) fn chosen_claim(name: Option<NodeName>) -> NodeName
    ensures { result ≡ chosen_claim name }
{
    match name {
        Some(name) => name,
        None => NodeName { claim: 0, node: 0 },
    }
}
