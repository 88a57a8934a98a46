//! Whether the nodes of each claim differ in position.
ghost use Rattle.std.specs.Prelude.{◌↔◌, IfOk, IsTrue};
ghost use Rattle.pg_settle.specs.Prelude.{DifferInPosition, HaveDifferentPositions};

use pg_base::Memory;
use pg_cert::{Cert, Node};
use std::alloc::Global;
use std::collections::HashSet;

/// Whether no two of the nodes have the same position.
fn nodes_differ(alloc: Global, nodes: &[Node]) -> Result<bool, Memory>
    ensures { IfOk result (λ differ. IsTrue differ ↔ HaveDifferentPositions nodes.now) }
{
    let mut met = HashSet::new(alloc);
    for node in nodes {
        let is_new = met.insert(node.position())?;
        if !is_new {
            return Ok(false);
        }
    }
    Ok(true)
}

/// Whether no two nodes of one claim have the same position, so that the certificate may be folded.
pub(crate) fn claims_differ(alloc: Global, certificate: &Cert) -> Result<bool, Memory>
    ensures { IfOk result (λ differ. IsTrue differ ↔ DifferInPosition certificate.now) }
{
    for claim in certificate.claims.as_slice() {
        let differ = nodes_differ(alloc, claim.nodes.as_slice())?;
        if !differ {
            return Ok(false);
        }
    }
    Ok(true)
}
