//! The positions that a search has met, by their signatures.
ghost use Rattle.std.specs.Prelude.{◌≤◌};
ghost use Rattle.std.specs.HashMap.{hash_map_len};

use crate::numbers::Numbers;
use crate::signature::Signature;
use pg_base::Memory;
use std::alloc::Global;
use std::collections::HashMap;

/// The numbers of positions, by their signatures. Their number is bounded.
#[derive(Debug, Drop)]
pub struct Table {
    most: u32,
    numbers: HashMap<Signature, Numbers>,
    ghost few: { hash_map_len numbers ≤ most },
}

impl Table {
    ghost use Rattle.std.specs.Prelude.{◌≡◌, ◌+◌, ◌↔◌, IsTrue};
    ghost use Rattle.pg_transpositions.specs.Table.{count_of, most_of};

    /// Returns a table without positions, with room for `most`.
    pub fn new(alloc: Global, most: u32) -> Table
        ensures most { most_of result ≡ most }
        ensures none { count_of result ≡ 0 }
    {
        Table {
            most,
            numbers: HashMap::new(alloc),
        }
    }

    /// Returns how many positions it has: no more than there is room for.
    pub fn len(&self) -> usize
        ensures exact { result ≡ count_of self.now }
        ensures few { result ≤ most_of self.now }
    {
        self.numbers.len()
    }

    /// Tests whether no room is left.
    pub fn is_full(&self) -> bool
        ensures { IsTrue result ↔ (most_of self.now ≤ count_of self.now) }
    {
        self.numbers.len() >= self.most as usize
    }

    /// Returns the numbers of a position if it was met.
    pub fn find(&self, key: &Signature) -> Option<Numbers> {
        match self.numbers.get(key) {
            Some(numbers) => Some(*numbers),
            None => None,
        }
    }

    /// Replaces the numbers of a position if it was met.
    pub fn renew(&mut self, key: &Signature, numbers: Numbers)
        ensures most { most_of self.new ≡ most_of self.old }
        ensures count { count_of self.new ≡ count_of self.old }
    {
        if let Some(known) = self.numbers.get_mut(key) {
            *known = numbers;
        }
    }

    /// Keeps the numbers of a position. If no room is left, only those of a position that was met
    /// are replaced.
    ///
    /// # Errors
    ///
    /// `Memory` if an allocation fails.
    pub fn put(&mut self, key: Signature, numbers: Numbers) -> Result<(), Memory>
        ensures most { most_of self.new ≡ most_of self.old }
        ensures count { count_of self.new ≤ count_of self.old + 1 }
    {
        if self.is_full() {
            self.renew(&key, numbers);
            return Ok(());
        }
        self.numbers.insert(key, numbers)?;
        Ok(())
    }
}
