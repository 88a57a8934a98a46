//! The numbers of nodes, by their positions.
ghost use Rattle.std.specs.Prelude.{◌<◌, IfSome};
ghost use Rattle.pg_cert.specs.declared.limits.TheConstants.{MAX_CLAIM_NODES};

use pg_base::Memory;
use pg_patterns::Spot;
use std::alloc::Global;
use std::collections::HashMap;

/// The number of a node.
#[derive(Clone, Copy, Debug)]
struct Number {
    number: u32,
    ghost few: { number < 100000 },
}

/// The numbers of nodes by position.
#[derive(Debug, Drop)]
pub(crate) struct NodeNumbers {
    numbers: HashMap<Spot, Number>,
}

impl NodeNumbers {
    /// Returns the numbers of no nodes.
    pub(crate) fn new(alloc: Global) -> NodeNumbers {
        NodeNumbers {
            numbers: HashMap::new(alloc),
        }
    }

    /// Returns the number of the node at the position, if there is one.
    pub(crate) fn of(&self, spot: &Spot) -> Option<u32>
        ensures { IfSome result (λ n. n < MAX_CLAIM_NODES) }
    {
        match self.numbers.get(spot) {
            Some(found) => Some(found.number),
            None => None,
        }
    }

    /// Adds the number of the node at the position.
    pub(crate) fn put(&mut self, spot: Spot, number: u32) -> Result<(), Memory>
        requires { number < 100000 }
    {
        self.numbers.insert(spot, Number { number })?;
        Ok(())
    }
}
