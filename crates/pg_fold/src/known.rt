//! The plain nodes so far, by their positions.
ghost use Rattle.std.specs.Prelude.{◌≡◌, ◌+◌, ◌*◌, ◌%◌, ◌^◌, ◌<◌, None, Some, if◌then◌else◌, IfOk};
ghost use Rattle.std.specs.Prelude.{OnOk};
ghost use Rattle.pg_fold.specs.Prelude.{get, equal_positions, Position};
ghost use Rattle.pg_fold.specs.Codes.{IsKnown, code_of, mixed, place_of};

use pg_base::Memory;
use pg_game::Position;
use std::alloc::Global;
use std::collections::HashMap;

/// A position's code is made of so many words of each side's points: those in which the cells of a
/// board lie.
const ROWS: usize = 4;

/// By which a code is multiplied before the next word is added: 2 to the 64th, divided by the
/// golden ratio.
const MIXER: u64 = 0x9e37_79b9_7f4a_7c15;

/// So many marks are kept for each node of a claim. A position that isn't known has a marked code
/// once in so many times at most.
const MARKS: usize = 32;

/// The plain nodes so far.
#[derive(Debug, Drop)]
pub(crate) struct Known {
    /// Their numbers, by their positions.
    pub(crate) places: HashMap<Position, u32>,
    /// Which codes known positions have.
    pub(crate) marks: Vec<bool>,
}

/// The code with one word more.
fn mixed(code: u64, word: u64) -> u64
    ensures { result ≡ mixed code word }
{
    code.wrapping_mul(MIXER).wrapping_add(word)
}

/// The code of a position.
fn code_of(p: &Position) -> u64
    ensures { result ≡ code_of p.now }
{
    let (x, y) = (p.x.words(), p.y.words());
    let mut code = 0;
    for row in 0..ROWS {
        code = mixed(mixed(code, x[row]), y[row]);
    }
    code
}

/// The place of a position's mark among so many.
fn place_of(p: &Position, count: usize) -> usize
    requires { 0 < count }
    ensures place { result ≡ place_of p.now count }
    ensures range { result < count }
{
    (code_of(p) % count as u64) as usize
}

impl Known {
    /// No nodes yet, for a claim of so many.
    pub(crate) fn new(alloc: Global, count: usize) -> Result<Known, Memory>
        requires few { count < 2 ^ 32 }
        ensures empty { IfOk result
            (λ known. (p : Position) → get equal_positions known.places p ≡ None) }
        ensures known { IfOk result IsKnown }
    {
        Ok(Known {
            places: HashMap::new(alloc),
            marks: vec![in alloc; false; MARKS * count + 1]?,
        })
    }

    /// The number of the node with the position. Most positions that aren't known are ruled out by
    /// their code alone.
    pub(crate) fn find(&self, p: &Position) -> Option<u32>
        requires { IsKnown self.now }
        ensures { result ≡ get equal_positions self.now.places p.now }
    {
        if !self.marks[place_of(p, self.marks.len())] {
            return None;
        }
        match self.places.get(p) {
            Some(node) => Some(*node),
            None => None,
        }
    }

    /// Adds the node of that number, which has the position.
    pub(crate) fn add(&mut self, p: Position, number: u32) -> Result<(), Memory>
        requires { IsKnown self.old }
        ensures kept { OnOk result
            ((q : Position) → get equal_positions self.new.places q ≡ (if equal_positions p q
            then Some number else get equal_positions self.old.places q)) }
        ensures known { OnOk result (IsKnown self.new) }
    {
        let place = place_of(&p, self.marks.len());
        self.marks[place] = true;
        self.places.insert(p, number)?;
        Ok(())
    }
}
