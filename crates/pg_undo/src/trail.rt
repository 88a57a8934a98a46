//! Trails.
ghost use Rattle.std.specs.Prelude.{◌≡◌, ◌<◌, ◌≤◌, ◌-◌, [], length, slice_index, IfOk};
ghost use Rattle.pg_undo.specs.Trail.{with_cell, with_set, back_to, settled};

use pg_base::Memory;
use std::alloc::Global;
use std::marker::Model;

/// Cells, and the list of the values that they had before each change.
#[derive(Debug, Drop)]
pub struct Trail {
    cells: Vec<u32>,
    /// Which cell changed, and what it was, the last change at the end.
    entries: Vec<(usize, u32)>,
    /// How many entries there may be: so many have room.
    room: usize,
}

/// The cells, the entries, and how many more entries have room.
impl Model for Trail {
    ghost use Rattle.std.specs.Prelude.{◌≤◌, ◌-◌, ◌<◌, length};
    ghost use Rattle.std.specs.List.{All};
    ghost use Rattle.std.specs.Vec.{vec_capacity};
    ghost use Rattle.pg_undo.specs.Trail.{Cells};

    ghost Value = { Cells };

    ghost view = { λ a. record {
      cells = a.cells.items;
      entries = a.entries.items;
      spare = a.room - length a.entries.items;
    } };

    ghost invariant = { λ a. (length a.entries.items ≤ a.room)
        × (a.room ≤ vec_capacity a.entries)
        × All (λ e. e.0 < length a.cells.items) a.entries.items };
}

impl Trail {
    /// A copy of the cells, with room for so many entries.
    ///
    /// # Errors
    ///
    /// `Memory` where no memory is found.
    pub fn new(alloc: Global, cells: &[u32], room: usize) -> Result<Trail, Memory>
        ensures cells { IfOk result (λ trail. trail.cells ≡ cells.now) }
        ensures entries { IfOk result (λ trail. trail.entries ≡ []) }
        ensures spare { IfOk result (λ trail. trail.spare ≡ room) }
    {
        let cells = cells.to_vec(alloc)?;
        let entries = Vec::with_capacity(alloc, room)?;
        Ok(Trail {
            cells,
            entries,
            room,
        })
    }

    /// What the cell holds.
    pub fn get(&self, i: usize) -> u32
        requires { i < length self.now.cells }
        ensures { result ≡ slice_index self.now.cells i }
    {
        self.cells[i]
    }

    /// Changes the cell, and writes down what it was. It takes no memory.
    pub fn set(&mut self, i: usize, v: u32)
        requires within { i < length self.old.cells }
        requires room { 1 ≤ self.old.spare }
        ensures { self.new ≡ with_set self.old i v }
    {
        let Ok(()) = self.entries.push((i, self.cells[i])) else {
            unreachable!()
        };
        self.cells[i] = v;
    }

    /// Changes the cell without writing down what it was. It takes no memory.
    pub fn put(&mut self, i: usize, v: u32)
        requires { i < length self.old.cells }
        ensures { self.new ≡ with_cell self.old i v }
    {
        self.cells[i] = v;
    }

    /// Drops all entries: what was changed can't be undone any more, and the whole room is there
    /// again.
    pub fn settle(&mut self)
        ensures { self.new ≡ settled self.old }
    {
        self.entries.clear();
    }

    /// How many entries there are.
    pub fn level(&self) -> usize
        ensures { result ≡ length self.now.entries }
    {
        self.entries.len()
    }

    /// Takes entries back, from the last one on, until there are so many. It takes no memory.
    pub fn undo_to(&mut self, level: usize)
        requires { level ≤ length self.old.entries }
        ensures { self.new ≡ back_to level self.old }
    {
        while self.level() > level {
            self.take_back();
        }
    }

    /// Takes the last entry back.
    fn take_back(&mut self)
        requires { 1 ≤ length self.old.entries }
        ensures { self.new ≡ back_to (length self.old.entries - 1) self.old }
    {
        let Some((i, value)) = self.entries.pop() else {
            unreachable!()
        };
        self.cells[i] = value;
    }
}
