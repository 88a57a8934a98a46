//! Rows of numbers, one after the other in one array.
ghost use Rattle.std.specs.Prelude.{◌≡◌, ◌++◌, ◌∷◌, [], ◌<◌, ◌≤◌, ◌+◌, ◌-◌, take, drop, length};
ghost use Rattle.std.specs.Prelude.{get_or, IfOk};
ghost use Rattle.pg_undo.specs.Rows.{row_at, AreStarts};

use pg_base::Memory;
use std::alloc::Global;
use std::marker::Model;

/// Rows of numbers of any lengths, kept in one array (compressed sparse rows).
#[derive(Debug, Drop)]
pub struct Rows {
    /// Where each row begins, and where the last one ends.
    starts: Vec<usize>,
    /// The rows, one after the other.
    items: Vec<u32>,
}

/// The rows.
impl Model for Rows {
    ghost use Rattle.std.specs.Prelude.{ℕ, List};
    ghost use Rattle.pg_undo.specs.Rows.{rows_of, AreStarts};

    ghost Value = { List (List ℕ) };

    ghost view = { λ a. rows_of a.starts.items a.items.items };

    ghost invariant = { λ a. AreStarts a.starts.items a.items.items };
}

impl Rows {
    /// Returns no rows.
    ///
    /// # Errors
    ///
    /// `Memory` if no memory is found.
    pub fn new(alloc: Global) -> Result<Rows, Memory>
        ensures { IfOk result (λ rows. rows ≡ []) }
    {
        let mut starts = Vec::new(alloc);
        starts.push(0)?;
        Ok(Rows {
            starts,
            items: Vec::new(alloc),
        })
    }

    /// Adds a row after the others.
    ///
    /// # Errors
    ///
    /// `Memory` if no memory is found.
    pub fn with_row(mut self, row: &[u32]) -> Result<Rows, Memory>
        ensures { IfOk result (λ rows. rows ≡ self ++ row.now ∷ []) }
    {
        let Rows {
            mut starts,
            mut items,
        } = self;
        items.extend_from_slice(row)?;
        starts.push(items.len())?;
        Ok(Rows { starts, items })
    }

    /// Returns how many rows there are.
    pub fn len(&self) -> usize
        ensures { result ≡ length self.now }
    {
        self.starts.len() - 1
    }

    /// Returns how many numbers row `i` has, counted from 0.
    pub fn row_len(&self, i: usize) -> usize
        requires { i < length self.now }
        ensures { result ≡ length (get_or self.now i []) }
    {
        len_of(self.starts.as_slice(), i)
    }

    /// Returns row `i`, counted from 0.
    pub fn row(&self, i: usize) -> &[u32]
        requires { i < length self.now }
        ensures { result.now ≡ get_or self.now i [] }
    {
        row_of(self.starts.as_slice(), self.items.as_slice(), i)
    }
}

/// A row that grows.
#[derive(Debug, Drop)]
pub struct Row {
    items: Vec<u32>,
}

/// The numbers.
impl Model for Row {
    ghost use Rattle.std.specs.Prelude.{ℕ, List};

    ghost Value = { List ℕ };

    ghost view = { λ a. a.items.items };
}

impl Row {
    /// Returns a row without a number.
    pub fn new(alloc: Global) -> Row
        ensures { result ≡ [] }
    {
        Row {
            items: Vec::new(alloc),
        }
    }

    /// Adds a number at the end.
    ///
    /// # Errors
    ///
    /// `Memory` if no memory is found.
    pub fn push(&mut self, i: u32) -> Result<(), Memory>
        ensures { IfOk result (λ _. self.new ≡ self.old ++ i ∷ []) }
    {
        self.items.push(i)?;
        Ok(())
    }

    /// Returns the numbers in order.
    pub fn as_slice(&self) -> &[u32]
        ensures { result.now ≡ self.now }
    {
        self.items.as_slice()
    }
}

/// How long the row of a number is.
fn len_of(starts: &[usize], i: usize) -> usize
    requires within { i + 1 < length starts.now }
    requires ascending { get_or starts.now i 0 ≤ get_or starts.now (i + 1) 0 }
    ensures { result ≡ get_or starts.now (i + 1) 0 - get_or starts.now i 0 }
{
    starts[i + 1] - starts[i]
}

/// The row of a number.
fn row_of<'a>(starts: &[usize], items: &'a [u32], i: usize) -> &'a [u32]
    requires starts { AreStarts starts.now items.now }
    requires within { i + 1 < length starts.now }
    ensures { result.now ≡ row_at starts.now items.now i }
{
    let from = starts[i];
    let to = starts[i + 1];
    part(items, from, to)
}

/// The part of the list between two places.
fn part(items: &[u32], from: usize, to: usize) -> &[u32]
    requires ordered { from ≤ to }
    requires within { to ≤ length items.now }
    ensures { result.now ≡ take (to - from) (drop from items.now) }
{
    &items[from..to]
}
