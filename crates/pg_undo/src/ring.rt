//! Rings linked by index.
ghost use Rattle.std.specs.Prelude.{◌≡◌, ◌++◌, ◌∷◌, [], ◌≤◌, length, IfOk, nat_lt, Some, None};
ghost use Rattle.std.specs.Prelude.{if◌then◌else◌};
ghost use Rattle.std.specs.List.{range_with_len, Contains, find, slice_get};
ghost use Rattle.pg_undo.specs.Ring.{present, without};

use pg_base::Memory;
use std::alloc::Global;
use std::marker::Model;

/// The numbers below n in ascending order, from which members are taken out, and put back in
/// reverse order.
///
/// The number n stands for both ends: what follows it is the first member, and what precedes it is
/// the last.
#[derive(Debug, Drop)]
pub struct Ring {
    /// The n with which the ring was made.
    end: u32,
    /// What follows each member, and each member that was taken out when it was.
    next: Vec<u32>,
    /// What precedes it.
    previous: Vec<u32>,
    /// What was taken out, the last at the end; it has room for all numbers below n.
    unlinked: Vec<u32>,
}

/// The lists that the ring was, oldest first: the last is what it is now, and each other one is
/// what it was before a member was taken out that is still out.
impl Model for Ring {
    ghost use Rattle.std.specs.Prelude.{ℕ, List, ◌≡◌, ◌+◌, ◌≤◌, length, reverse};
    ghost use Rattle.std.specs.Vec.{vec_capacity};

    ghost Value = { List (List ℕ) };

    ghost use Rattle.pg_undo.specs.Links.{history, AreLinks};

    ghost view = { λ a. history a.end (reverse a.unlinked.items) };

    ghost invariant = { λ a. AreLinks a.end a.next.items a.previous.items (reverse a.unlinked.items)
        × (a.end ≤ vec_capacity a.unlinked) };
}

impl Ring {
    /// The ring of the numbers below n.
    ///
    /// # Errors
    ///
    /// `Memory` where no memory is found.
    pub fn new(alloc: Global, n: u32) -> Result<Ring, Memory>
        ensures { IfOk result (λ ring. ring ≡ range_with_len 0 n ∷ []) }
    {
        let slots = n as usize + 1;
        let mut next = Vec::with_capacity(alloc, slots)?;
        let mut previous = Vec::with_capacity(alloc, slots)?;
        previous.push(n)?;
        for i in 0..n {
            next.push(i + 1)?;
            previous.push(i)?;
        }
        next.push(0)?;
        let unlinked = Vec::with_capacity(alloc, n as usize)?;
        Ok(Ring {
            end: n,
            next,
            previous,
            unlinked,
        })
    }

    /// Takes the member out. It takes no memory.
    pub fn unlink(&mut self, i: u32)
        requires { Contains (present self.old) i }
        ensures { self.new ≡ self.old ++ without i (present self.old) ∷ [] }
    {
        let before = self.previous[i as usize];
        let after = self.next[i as usize];
        self.next[before as usize] = after;
        self.previous[after as usize] = before;
        let Ok(()) = self.unlinked.push(i) else {
            unreachable!()
        };
    }

    /// Puts back what was taken out last and is still out. It takes no memory.
    pub fn relink(&mut self)
        requires { 2 ≤ length self.old }
        ensures { self.old ≡ self.new ++ present self.old ∷ [] }
    {
        let Some(i) = self.unlinked.pop() else {
            unreachable!()
        };
        let before = self.previous[i as usize];
        let after = self.next[i as usize];
        self.next[before as usize] = i;
        self.previous[after as usize] = i;
    }

    /// How many members there are.
    pub fn len(&self) -> u32
        ensures { result ≡ length (present self.now) }
    {
        self.end - self.unlinked.len() as u32
    }

    /// The first member, and None where there is none.
    pub fn first(&self) -> Option<u32>
        ensures { result ≡ slice_get (present self.now) 0 }
    {
        below(self.next[self.end as usize], self.end)
    }

    /// The member after a member, and None at the last one.
    pub fn next(&self, i: u32) -> Option<u32>
        requires { Contains (present self.now) i }
        ensures { result ≡ find (nat_lt i) (present self.now) }
    {
        below(self.next[i as usize], self.end)
    }
}

/// The number where it is below the end, and None where it isn't.
fn below(i: u32, end: u32) -> Option<u32>
    ensures { result ≡ (if nat_lt i end then Some i else None) }
{
    (i < end).then_some(i)
}
