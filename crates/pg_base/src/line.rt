//! Lines, and lists of lines.
ghost use Rattle.std.specs.Prelude.{◌≡◌, ℕ, ◌<◌, length, slice_index, IfOk, List, IsTrue, ◌↔◌};
ghost use Rattle.pg_base.specs.Prelude.{Contains, IsPermutation, IsStrictlyIncreasing};
ghost use Rattle.pg_base.specs.Line.{StandsTwice};

use std::alloc::{AllocError, Global};
use std::marker::Model;

/// Different points in ascending order.
#[derive(Debug, Drop)]
pub struct Line {
    points: Vec<u16>,
}

/// The points.
impl Model for Line {
    ghost use Rattle.std.specs.Prelude.{ℕ, List};
    ghost use Rattle.std.specs.List.Sorted.{IsStrictlyIncreasing};

    ghost Value = { List ℕ };

    ghost view = { λ a. a.points.items };

    ghost invariant = { λ a. IsStrictlyIncreasing a.points.items };
}

/// Why a line can't be made.
#[derive(Clone, Copy, Debug, PartialEq, Eq)]
pub enum LineFault {
    /// A point stands twice.
    Repeated,
    /// No memory is left.
    Memory,
}

impl From<AllocError> for LineFault {
    ghost use Rattle.std.specs.Prelude.{◌≡◌};
    ghost use Rattle.pg_base.specs.declared.line.LineFault.TheVariants.{Memory};

    ghost from_gives = { λ _ fault. fault ≡ Memory };

    fn from(_: AllocError) -> LineFault {
        LineFault::Memory
    }
}

impl Line {
    /// The line of these points, which may come in any order; `Repeated` comes exactly where a
    /// point stands twice.
    pub fn new(alloc: Global, points: &[u16]) -> Result<Line, LineFault>
        ensures points { IfOk result (λ line. IsPermutation points.now line) }
        ensures ascending { IfOk result IsStrictlyIncreasing }
        ensures repeated { result ≡ Err LineFault.Repeated → StandsTwice points.now }
        ensures distinct { IfOk result (λ _. ¬ StandsTwice points.now) }
    {
        let mut points = points.to_vec(alloc)?;
        points.sort_unstable();
        if points.is_sorted_by(|a, b| *a < *b) {
            Ok(Line { points })
        } else {
            Err(LineFault::Repeated)
        }
    }

    /// How many points it has.
    pub fn len(&self) -> usize
        ensures length { result ≡ length self.now }
        ensures ascending { IsStrictlyIncreasing self.now }
    {
        self.points.len()
    }

    /// The point at a place.
    pub fn at(&self, i: usize) -> u16
        requires { i < length self.now }
        ensures { result ≡ slice_index self.now i }
    {
        self.points[i]
    }

    /// Whether the line holds the point.
    pub fn has(&self, v: u16) -> bool
        ensures { IsTrue result ↔ Contains self.now v }
    {
        self.points.contains(&v)
    }

    /// The points in ascending order.
    pub fn as_slice(&self) -> &[u16]
        ensures { result.now ≡ self.now }
    {
        self.points.as_slice()
    }
}

/// A list of lines.
#[derive(Debug, Drop)]
pub struct Lines {
    members: Vec<Line>,
}

/// The lines.
impl Model for Lines {
    ghost use Rattle.std.specs.Prelude.{ℕ, List};

    ghost Value = { List (List ℕ) };

    ghost view = { λ a. a.members.items };
}

impl Lines {
    /// The list of these lines.
    pub fn from_vec(members: Vec<Line>) -> Lines
        ensures { result ≡ members.items }
    {
        Lines { members }
    }

    /// The lines in order.
    pub fn as_slice(&self) -> &[Line]
        ensures { result.now ≡ self.now }
    {
        self.members.as_slice()
    }
}
