//! The nodes that show answers.
ghost use Rattle.std.specs.Prelude.{◌≡◌, ◌<◌, ◌^◌, ◌∷◌, ◌++◌, [], length, not, Bool, true};
ghost use Rattle.std.specs.Prelude.{false, OnOk, IfOk};
ghost use Rattle.pg_met.specs.Claims.{nodes_of};

use pg_base::Memory;
use pg_leaf::KeptNode;
use std::alloc::Global;

/// The nodes that show the answer yes, and those that show no.
#[derive(Debug, Drop)]
pub struct Claims {
    /// Those that show yes, each after those that it names.
    pub yes: Vec<KeptNode>,
    /// Those that show no, each after those that it names.
    pub no: Vec<KeptNode>,
}

impl Claims {
    /// Returns no nodes.
    pub fn new(alloc: Global) -> Claims
        ensures { (b : Bool) → nodes_of result b ≡ [] }
    {
        Claims {
            yes: Vec::new(alloc),
            no: Vec::new(alloc),
        }
    }

    /// Adds a node that shows the answer, and returns its number among those.
    ///
    /// # Errors
    ///
    /// `Memory` if memory runs out.
    pub fn add(&mut self, answer: bool, node: KeptNode) -> Result<u32, Memory>
        requires yes_room { length (nodes_of self.old true) < 2 ^ 32 }
        requires no_room { length (nodes_of self.old false) < 2 ^ 32 }
        ensures number { IfOk result (λ k. k ≡ length (nodes_of self.old answer)) }
        ensures added { OnOk result
            (nodes_of self.new answer ≡ nodes_of self.old answer ++ node ∷ []) }
        ensures other { OnOk result
            (nodes_of self.new (not answer) ≡ nodes_of self.old (not answer)) }
    {
        if answer {
            let number = self.yes.len() as u32;
            self.yes.push(node)?;
            Ok(number)
        } else {
            let number = self.no.len() as u32;
            self.no.push(node)?;
            Ok(number)
        }
    }

    /// Returns the nodes that show the answer.
    pub fn into_nodes(self, answer: bool) -> Vec<KeptNode>
        ensures { result.items ≡ nodes_of self answer }
    {
        let Claims { yes, no } = self;
        if answer { yes } else { no }
    }
}
