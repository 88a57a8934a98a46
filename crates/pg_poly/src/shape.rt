//! Shapes.
ghost use Rattle.std.specs.Prelude.{◌≡◌, false, true, ◌↔◌, ◌<◌, ◌≤◌, ◌==◌, IfOk, Err, length};
ghost use Rattle.std.specs.List.{position};
ghost use Rattle.pg_poly.specs.Decided.{is_shape};
ghost use Rattle.pg_poly.specs.Shapes.{IsShape, are_signs, cells_of, has_rows, is_row, ones};
ghost use Rattle.pg_poly.specs.Shapes.{width_of};
ghost use Rattle.pg_poly.specs.declared.limits.TheConstants.{MAX_CELLS};

use crate::cell::Cell;
use crate::limits::MAX_CELLS;
use crate::links::is_connected;
use pg_base::Memory;
use std::alloc::Global;
use std::marker::Model;

/// A polyomino (Golomb 1954; Harary's animals): cells of which any two are linked by steps between
/// cells that share a side.
#[derive(Debug, Drop)]
pub struct Shape {
    cells: Vec<Cell>,
}

/// The cells, row by row.
impl Model for Shape {
    ghost use Rattle.std.specs.Prelude.{List, ◌<◌, length};
    ghost use Rattle.pg_poly.specs.declared.cell.Cell.{Cell};

    ghost Value = { List Cell };

    ghost view = { λ a. a.cells.items };

    ghost invariant = { λ a. 0 < length a.cells.items };
}

/// Why a word can't be read as a shape.
#[derive(Clone, Copy, Debug, PartialEq, Eq)]
pub enum ShapeFault {
    /// The word has more than 100 signs `1`.
    Large,
    /// The word isn't a shape.
    Form,
    /// No memory is left.
    Memory,
}

/// How many signs `1` a word has.
fn ones(word: &[u8]) -> usize
    ensures { result ≡ ones word.now }
{
    word.iter().filter(|b| **b == b'1').count()
}

/// Whether each sign is `0` or `1`.
fn are_signs(row: &[u8]) -> bool
    ensures { result ≡ are_signs row.now }
{
    row.iter().all(|b| *b == b'0' || *b == b'1')
}

/// Whether the row has this width, and only signs `0` and `1`.
fn is_row(width: usize, row: &[u8]) -> bool
    ensures { result ≡ is_row width row.now }
{
    row.len() == width && are_signs(row)
}

/// Where the first sign `/` stands.
fn first_end(word: &[u8]) -> Option<usize>
    ensures { result ≡ position (λ b. b == 47) word.now }
{
    word.iter().position(|b| *b == b'/')
}

/// How wide the first row is.
fn width_of(word: &[u8]) -> usize
    ensures { result ≡ width_of word.now }
{
    first_end(word).unwrap_or(word.len())
}

/// Whether the word has rows of one width.
fn has_rows(word: &[u8]) -> bool
    ensures { result ≡ has_rows word.now }
{
    let width = width_of(word);
    width > 0 && word.split(|b| *b == b'/').all(|row| is_row(width, row))
}

/// The cells of a word.
fn read_cells(alloc: Global, word: &[u8]) -> Result<Vec<Cell>, Memory>
    ensures { IfOk result (λ cells. cells.items ≡ cells_of word.now) }
{
    let mut cells = Vec::new(alloc);
    let mut row = 0;
    let mut column = 0;
    for b in word {
        if *b == b'/' {
            row += 1;
            column = 0;
        } else {
            if *b == b'1' {
                cells.push(Cell { row, column })?;
            }
            column += 1;
        }
    }
    Ok(cells)
}

impl Shape {
    /// The shape that a word writes.
    ///
    /// # Errors
    ///
    /// `Large` exactly where the word has more than 100 signs `1`, else `Form` exactly where it
    /// isn't a shape, and `Memory` where no memory is found.
    pub fn read(alloc: Global, word: &[u8]) -> Result<Shape, ShapeFault>
        ensures cells { IfOk result (λ shape. shape ≡ cells_of word.now) }
        ensures count { IfOk result (λ shape. length shape ≡ ones word.now) }
        ensures shape { IfOk result (λ _. (ones word.now ≤ MAX_CELLS) × IsShape word.now) }
        ensures large { (result ≡ Err ShapeFault.Large) ↔ (MAX_CELLS < ones word.now) }
        ensures form { result ≡ Err ShapeFault.Form → is_shape word.now ≡ false }
        ensures told { IfOk result (λ _. is_shape word.now ≡ true) }
        ensures none { result ≡ Err ShapeFault.Form → ¬ IsShape word.now }
    {
        if ones(word) > MAX_CELLS {
            return Err(ShapeFault::Large);
        }
        if !has_rows(word) {
            return Err(ShapeFault::Form);
        }
        let Ok(cells) = read_cells(alloc, word) else {
            return Err(ShapeFault::Memory);
        };
        let Ok(connected) = is_connected(alloc, &cells) else {
            return Err(ShapeFault::Memory);
        };
        if cells.is_empty() || !connected {
            return Err(ShapeFault::Form);
        }
        Ok(Shape { cells })
    }

    /// The cells, row by row.
    pub fn as_slice(&self) -> &[Cell]
        ensures cells { result.now ≡ self.now }
        ensures some { 0 < length self.now }
    {
        self.cells.as_slice()
    }
}
