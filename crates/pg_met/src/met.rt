//! The positions that a search has met, each once, in the order in which they were met.
ghost use Rattle.std.specs.Prelude.{◌≡◌, ◌<◌, ◌^◌, [], Some, IfOk, length, slice_get};
ghost use Rattle.pg_met.specs.Met.{IsMeeting};

use indexmap::IndexSet;
use pg_base::Memory;
use pg_leaf::Key;
use std::alloc::Global;
use std::marker::Model;

/// The positions met, each at its place.
#[derive(Debug, Drop)]
pub struct Met {
    members: IndexSet<Key>,
}

/// Their list.
impl Model for Met {
    ghost use Rattle.std.specs.Coded.{code_by, coded_list};
    ghost use Rattle.std.specs.Prelude.{List};
    ghost use Rattle.std.proofs.Common.{refl};
    ghost use Rattle.pg_game.specs.contracts.position.Position as position;
    ghost use Rattle.pg_game.specs.declared.position.Position.{Position};
    ghost use Rattle.pg_met.specs.MetList.{MetList};

    ghost Value = { MetList };

    ghost coded = { code_by (List Position) (coded_list position.the_row.coded)
        (λ m. m.items) (λ ps. record { items = ps }) (λ _. refl) };

    ghost view = { λ a. record { items = a.members.keys } };
}

impl Met {
    /// Returns no positions.
    pub fn new(alloc: Global) -> Met
        ensures { result.items ≡ [] }
    {
        Met {
            members: IndexSet::new(alloc),
        }
    }

    /// Returns how many positions are met.
    pub fn len(&self) -> usize
        ensures { result ≡ length self.now.items }
    {
        self.members.len()
    }

    /// Returns the position at a place.
    pub fn key(&self, place: u32) -> &Key
        requires { place < length self.now.items }
        ensures { slice_get self.now.items place ≡ Some result.now }
    {
        let Some(key) = self.members.get_index(place as usize) else {
            unreachable!()
        };
        key
    }

    /// Returns the place of the position, and whether it wasn't met yet: then it is added.
    ///
    /// # Errors
    ///
    /// `Memory` if memory runs out.
    pub fn meet(&mut self, q: Key) -> Result<(u32, bool), Memory>
        requires few { length self.old.items < 2 ^ 32 }
        ensures { IfOk result (λ r. IsMeeting q self.old.items self.new.items r.0 r.1) }
    {
        let (place, is_new) = self.members.insert_full(q)?;
        Ok((place as u32, is_new))
    }
}
