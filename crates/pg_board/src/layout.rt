//! The lines of a game and the lines through each point.
ghost use Rattle.std.specs.Prelude.{◌≡◌, ◌≢◌, ◌<◌, ◌≤◌, ◌+◌, [], length, map, replicate, IfOk};
ghost use Rattle.pg_board.specs.Prelude.{All, range_with_len, IsStrictlyIncreasing, Switching};
ghost use Rattle.pg_board.specs.Gathered.{AreGathered};
ghost use Rattle.pg_board.specs.Shape.{IsShape, shape_of, line_in, lines_through, mark_cell};
ghost use Rattle.pg_board.specs.Shape.{count_cell, free_cell, cell_count, lines_holding};

use pg_base::{Line, Memory, Side};
use pg_game::{Game, MAX_LINES, greatest_length};
use pg_undo::{Row, Rows};
use std::alloc::Global;
use std::marker::Model;

/// The lines, and for each point those that hold it. Nothing of it changes.
#[derive(Debug, Drop)]
pub(crate) struct Layout {
    points: u16,
    /// The length of the longest line.
    longest: u16,
    lines: Rows,
    through: Rows,
}

/// The points and the lines.
impl Model for Layout {
    ghost use Rattle.pg_board.specs.Shape.{Shape, IsLayout};

    ghost Value = { Shape };

    ghost view = { λ a. record { points = a.points; longest = a.longest; lines = a.lines } };

    ghost invariant = { λ a. IsLayout (record {
      points = a.points;
      longest = a.longest;
      lines = a.lines;
    }) a.through };
}

impl Layout {
    /// The lines of a game on lines.
    pub(crate) fn of_game(alloc: Global, g: &Game) -> Result<Layout, Memory>
        requires { g.now.kind ≢ Switching }
        ensures { IfOk result (λ layout. layout ≡ shape_of g.now) }
    {
        let lines = g.lines();
        let rows = line_rows(alloc, lines)?;
        let through = point_rows(alloc, g.points(), lines)?;
        Ok(Layout {
            points: g.points(),
            longest: greatest_length(lines) as u16,
            lines: rows,
            through,
        })
    }

    /// How many points there are.
    pub(crate) fn points(&self) -> u16
        ensures { result ≡ self.now.points }
    {
        self.points
    }

    /// How many lines there are.
    pub(crate) fn lines(&self) -> u32
        ensures count { result ≡ length self.now.lines }
        ensures shape { IsShape self.now }
    {
        self.lines.len() as u32
    }

    /// The length of the longest line.
    pub(crate) fn longest(&self) -> u16
        ensures { result ≡ self.now.longest }
    {
        self.longest
    }

    /// How many points a line has.
    pub(crate) fn line_len(&self, i: u32) -> u32
        requires { i < length self.now.lines }
        ensures count { result ≡ length (line_in self.now i) }
        ensures shape { IsShape self.now }
    {
        self.lines.row_len(i as usize) as u32
    }

    /// The points of a line, ascending.
    pub(crate) fn line(&self, i: u32) -> &[u32]
        requires { i < length self.now.lines }
        ensures points { result.now ≡ line_in self.now i }
        ensures shape { IsShape self.now }
    {
        self.lines.row(i as usize)
    }

    /// The lines that hold a point, ascending.
    pub(crate) fn through(&self, v: u16) -> &[u32]
        requires { v < self.now.points }
        ensures lines { result.now ≡ lines_through self.now v }
        ensures shape { IsShape self.now }
    {
        self.through.row(usize::from(v))
    }

    /// How many cells there are.
    pub(crate) fn cells(&self) -> usize
        ensures { result ≡ cell_count self.now }
    {
        let lines = self.lines.len();
        let lengths = usize::from(self.longest) + 1;
        1 + usize::from(self.points) + lines + lines + lengths + lengths
    }

    /// The cell of a point's mark.
    pub(crate) fn mark_cell(&self, v: u16) -> usize
        ensures { result ≡ mark_cell v }
    {
        1 + usize::from(v)
    }

    /// The cell with the number of a side's points in a line.
    pub(crate) fn count_cell(&self, side: Side, i: u32) -> usize
        requires { i < length self.now.lines }
        ensures { result ≡ count_cell self.now side i }
    {
        let first = 1 + usize::from(self.points);
        match side {
            Side::X => first + i as usize,
            Side::Y => first + self.lines.len() + i as usize,
        }
    }

    /// The cell with the number of lines without a point of the side that have so many free points.
    pub(crate) fn free_cell(&self, side: Side, f: u32) -> usize
        requires { f ≤ self.now.longest }
        ensures { result ≡ free_cell self.now side f }
    {
        let first = 1 + usize::from(self.points) + self.lines.len() + self.lines.len();
        match side {
            Side::X => first + f as usize,
            Side::Y => first + (usize::from(self.longest) + 1) + f as usize,
        }
    }
}

/// The same numbers, wider.
fn widened(alloc: Global, points: &[u16]) -> Result<Vec<u32>, Memory>
    ensures { IfOk result (λ row. row.items ≡ points.now) }
{
    let mut row = Vec::new(alloc);
    for v in points {
        row.push(u32::from(*v))?;
    }
    Ok(row)
}

/// A row for each line.
fn line_rows(alloc: Global, lines: &[Line]) -> Result<Rows, Memory>
    ensures { IfOk result (λ rows. rows ≡ lines.now) }
{
    let mut rows = Rows::new(alloc)?;
    for line in lines {
        let row = widened(alloc, line.as_slice())?;
        rows = rows.with_row(row.as_slice())?;
    }
    Ok(rows)
}

/// So many rows without a number.
fn no_rows(alloc: Global, points: u16) -> Result<Vec<Row>, Memory>
    ensures { IfOk result (λ rows. rows.items ≡ replicate points []) }
{
    let mut rows = Vec::with_capacity(alloc, usize::from(points))?;
    for _v in 0..points {
        rows.push(Row::new(alloc))?;
    }
    Ok(rows)
}

/// Writes the number of a line into the rows of its points.
fn add_line(rows: &mut [Row], lines: &[Line], i: usize) -> Result<(), Memory>
    requires few { length lines.now ≤ MAX_LINES }
    requires low { i < length lines.now }
    requires ascending { All IsStrictlyIncreasing lines.now }
    requires range { All (λ line. All (λ v. v < length rows.old) line) lines.now }
    requires before { AreGathered lines.now i rows.old }
    ensures { IfOk result (λ _. AreGathered lines.now (i + 1) rows.new) }
{
    for v in lines[i].as_slice() {
        let row = &mut rows[usize::from(*v)];
        row.push(i as u32)?;
    }
    Ok(())
}

/// The rows, one after the other.
fn joined(alloc: Global, rows: &[Row]) -> Result<Rows, Memory>
    ensures { IfOk result (λ all. all ≡ rows.now) }
{
    let mut all = Rows::new(alloc)?;
    for row in rows {
        all = all.with_row(row.as_slice())?;
    }
    Ok(all)
}

/// The rows of the points once the number of each line is written into those of its points.
fn gathered(alloc: Global, rows: &mut [Row], lines: &[Line]) -> Result<Rows, Memory>
    requires few { length lines.now ≤ MAX_LINES }
    requires ascending { All IsStrictlyIncreasing lines.now }
    requires range { All (λ line. All (λ v. v < length rows.old) line) lines.now }
    requires before { AreGathered lines.now 0 rows.old }
    ensures { IfOk result
        (λ all. all ≡ map (lines_holding lines.now) (range_with_len 0 (length rows.old))) }
{
    for i in 0..lines.len() {
        add_line(rows, lines, i)?;
    }
    let all = joined(alloc, rows)?;
    Ok(all)
}

/// A row for each point, of the lines that hold it. Each line is walked once.
fn point_rows(alloc: Global, points: u16, lines: &[Line]) -> Result<Rows, Memory>
    requires few { length lines.now ≤ MAX_LINES }
    requires ascending { All IsStrictlyIncreasing lines.now }
    requires range { All (λ line. All (λ v. v < points) line) lines.now }
    ensures { IfOk result (λ rows. rows ≡ map (lines_holding lines.now) (range_with_len 0 points)) }
{
    let mut rows = no_rows(alloc, points)?;
    let all = gathered(alloc, rows.as_mut_slice(), lines)?;
    Ok(all)
}
