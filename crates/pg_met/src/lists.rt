//! Lists of moves and of places.
ghost use Rattle.std.specs.Prelude.{◌≡◌, [], ◌∷◌, ◌++◌, OnOk};

use pg_base::Memory;
use smallvec::SmallVec;
use std::alloc::Global;
use std::marker::Model;

/// Moves, each with the place of the position after it.
#[derive(Debug, Drop)]
pub struct Moves {
    members: Vec<(u16, u32)>,
}

impl Model for Moves {
    ghost use Rattle.std.specs.Prelude.{ℕ, List};

    ghost Value = { List (ℕ × ℕ) };

    ghost view = { λ a. a.members.items };
}

impl Moves {
    /// Returns no moves.
    pub fn new(alloc: Global) -> Moves
        ensures { result ≡ [] }
    {
        Moves {
            members: Vec::new(alloc),
        }
    }

    /// Adds a move to a point, with the place of the position after it. The first one takes memory
    /// for 16.
    ///
    /// # Errors
    ///
    /// `Memory` if memory runs out.
    pub fn push(&mut self, point: u16, place: u32) -> Result<(), Memory>
        ensures { OnOk result (self.new ≡ self.old ++ (point, place) ∷ []) }
    {
        if self.members.is_empty() {
            self.members.reserve(16)?;
        }
        self.members.push((point, place))?;
        Ok(())
    }

    /// Returns the members in order.
    pub fn as_slice(&self) -> &[(u16, u32)]
        ensures { result.now ≡ self.now }
    {
        self.members.as_slice()
    }
}

/// Places of positions. Four of them take no allocation.
#[derive(Debug, Drop)]
pub struct Places {
    members: SmallVec<u32, 4>,
}

impl Model for Places {
    ghost use Rattle.std.specs.Prelude.{ℕ, List};

    ghost Value = { List ℕ };

    ghost view = { λ a. a.members.items };
}

impl Places {
    /// Returns no places.
    pub fn new(alloc: Global) -> Places
        ensures { result ≡ [] }
    {
        Places {
            members: SmallVec::new(alloc),
        }
    }

    /// Adds a place. `Memory` is returned if memory runs out.
    pub fn push(&mut self, place: u32) -> Result<(), Memory>
        ensures { OnOk result (self.new ≡ self.old ++ place ∷ []) }
    {
        self.members.push(place)?;
        Ok(())
    }

    /// Returns the members in order.
    pub fn as_slice(&self) -> &[u32]
        ensures { result.now ≡ self.now }
    {
        self.members.as_slice()
    }
}
