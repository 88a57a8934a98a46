//! What the lines of a game file have said so far.
ghost use Rattle.std.specs.Prelude.{◌≡◌, ◌≤◌, ◌*◌, Some, length, sum_by};
ghost use Rattle.pg_files.specs.Prelude.{Grid, MAX_EDGES, MAX_POINTS, MAX_SUMMED_POINTS};
ghost use Rattle.pg_files.specs.Prelude.{MAX_VERTICES};

use crate::key::Key;
use pg_base::{Grid, Kind, Line, PointSet, Side};
use pg_game::{MAX_BIASED_LINE_POINTS, MAX_LINE_POINTS};
use std::alloc::Global;

/// What the lines of a game file have said so far.
#[derive(Debug, Drop)]
pub struct Draft {
    /// Whether the header has stood.
    pub begun: bool,
    /// The greatest rank of a key, 0 before the first.
    pub rank: u8,
    /// The kind, where it is said.
    pub kind: Option<Kind>,
    /// How many points a game with lines has, 0 before that is said.
    pub points: u16,
    /// The grid whose cells the points are, where there is one.
    pub grid: Option<Grid>,
    /// How many vertices there are, 0 before that is said.
    pub vertices: u16,
    /// One terminal.
    pub s: u16,
    /// The other terminal.
    pub t: u16,
    /// How many points Y claims in a turn, 1 before that is said.
    pub bias: u8,
    /// The lines in their order.
    pub lines: Vec<Line>,
    /// How many points the lines have together.
    pub total: usize,
    /// The ends of each edge, in the order given.
    pub ends: Vec<(u16, u16)>,
    /// X's marks.
    pub x: PointSet,
    /// Y's marks.
    pub y: PointSet,
    /// The side to move, where it is said.
    pub turn: Option<Side>,
    ghost totalled: { total ≡ sum_by length lines.items },
    ghost small: { total ≤ MAX_SUMMED_POINTS },
    ghost few_points: { points ≤ MAX_POINTS },
    ghost few_cells: { (g : Grid) → grid ≡ Some g → g.width * g.height ≤ MAX_POINTS },
    ghost few_vertices: { vertices ≤ MAX_VERTICES },
    ghost few_edges: { length ends.items ≤ MAX_EDGES },
}

impl Draft {
    ghost use Rattle.pg_files.specs.Prelude.{longest};
    ghost use Rattle.pg_files.specs.GameFile.{nothing, points_so_far, is_out_of_place};
    ghost use Rattle.pg_files.specs.Views.{view};

    /// The draft before the first line.
    pub fn new(alloc: Global) -> Draft
        ensures { view result ≡ nothing }
    {
        Draft {
            begun: false,
            rank: 0,
            kind: None,
            points: 0,
            grid: None,
            vertices: 0,
            s: 0,
            t: 0,
            bias: 1,
            lines: Vec::new(alloc),
            total: 0,
            ends: Vec::new(alloc),
            x: PointSet::empty(),
            y: PointSet::empty(),
            turn: None,
        }
    }

    /// How many points there are so far.
    pub fn points_so_far(&self) -> u32
        ensures count { result ≡ points_so_far (view self.now) }
        ensures few { result ≤ MAX_EDGES }
    {
        match self.kind {
            Some(Kind::Switching) => self.ends.len() as u32,
            _ => u32::from(self.points),
        }
    }

    /// Whether the key may not stand here.
    pub fn is_out_of_place(&self, key: Key) -> bool
        ensures { result ≡ is_out_of_place (view self.now) key }
    {
        let rank = key.rank();
        match self.kind {
            None => rank > 1,
            Some(kind) => {
                !key.belongs(kind)
                    || rank < self.rank
                    || (rank == self.rank && rank != 4)
                    || self.rank < key.needed_rank(kind)
                    || (key == Key::Shape && self.grid.is_none())
            }
        }
    }

    /// How many points a line may have: fewer where the bias is above 1.
    pub fn longest(&self) -> usize
        ensures { result ≡ longest (view self.now).bias }
    {
        if self.bias == 1 {
            MAX_LINE_POINTS
        } else {
            MAX_BIASED_LINE_POINTS
        }
    }
}
