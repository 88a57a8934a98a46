//! Which maps fit a game.
ghost use Rattle.std.specs.Prelude.{◌≡◌, ◌↔◌, ◌<◌, ◌≤◌, ◌*◌, ℕ, IfOk, IsTrue, Some, length, map};
ghost use Rattle.pg_maps.specs.Prelude.{All, AllPairs, Contains, range_with_len, IsPermutation};
ghost use Rattle.pg_maps.specs.Prelude.{IsSorted, MAX_MEMBERS, lines_of};
ghost use Rattle.pg_maps.specs.declared.grid_map.GridMap.{GridMap};
ghost use Rattle.pg_maps.specs.GridMaps.{IsMapOf, image_of, number_of};
ghost use Rattle.pg_maps.specs.Images.{Fits, HasSymmetry, AreFitting, board_of, image_line};
ghost use Rattle.pg_maps.specs.Rows.{points_of_rows, row_cmp, AreSortedRows, IsRow, IsTableOf};

use crate::grid_map::{GridMap, MAP_COUNT};
use crate::reorder::{are_reordered, is_among, sorted_rows};
use crate::telling::told_by;
use pg_base::{Grid, Line, Memory};
use pg_game::{Field, Game};
use std::alloc::{AllocError, Global};

/// Whether the map fits the game: it is a map of the game's board, and the images of the lines are
/// the lines in another order. A line that stands twice counts twice. A game without a board, as
/// each on a graph, has only the map that leaves every point, and that one fits.
///
/// # Errors
///
/// `Memory` where no memory is found.
pub fn fits(alloc: Global, g: &Game, m: GridMap) -> Result<bool, Memory>
    ensures { IfOk result (λ yes. IsTrue yes ↔ Fits g.now m) }
{
    let Some(grid) = board_of(g) else {
        return Ok(m.number() == 0);
    };
    if !m.is_map_of(grid) {
        return Ok(false);
    }
    let rows = sorted_rows(alloc, g.lines())?;
    Ok(fits_board(alloc, g, grid, rows.as_slice(), m)?)
}

/// The maps that fit the game, by their numbers, ascending.
///
/// # Errors
///
/// `Memory` where no memory is found.
pub fn fitting_maps(alloc: Global, g: &Game) -> Result<Vec<GridMap>, Memory>
    ensures fit { IfOk result (λ maps. (m : GridMap) → Contains maps.items m ↔ Fits g.now m) }
    ensures ascending { IfOk result
        (λ maps. AllPairs (λ a b. number_of a < number_of b) maps.items) }
{
    let mut maps = Vec::with_capacity(alloc, usize::from(MAP_COUNT))?;
    maps.push(GridMap::numbered(0))?;
    let Some(grid) = board_of(g) else {
        return Ok(maps);
    };
    let rows = sorted_rows(alloc, g.lines())?;
    for number in 1..MAP_COUNT {
        let m = GridMap::numbered(number);
        if fits_beside(alloc, g, grid, rows.as_slice(), maps.as_slice(), m)? {
            maps.push(m)?;
        }
    }
    Ok(maps)
}

/// Whether some map fits the game that isn't the one of number 0.
///
/// # Errors
///
/// `Memory` where no memory is found.
pub fn is_symmetric(alloc: Global, g: &Game) -> Result<bool, Memory>
    ensures { IfOk result (λ yes. IsTrue yes ↔ HasSymmetry g.now) }
{
    let Some(grid) = board_of(g) else {
        return Ok(false);
    };
    let rows = sorted_rows(alloc, g.lines())?;
    let maps = [GridMap::numbered(0)];
    for number in 1..MAP_COUNT {
        let map = GridMap::numbered(number);
        if fits_beside(alloc, g, grid, rows.as_slice(), &maps, map)? {
            return Ok(true);
        }
    }
    Ok(false)
}

/// Whether the map fits the game, whose lines the sorted rows are, where those of lower numbers
/// that fit are known.
fn fits_beside(
    alloc: Global,
    g: &Game,
    grid: Grid,
    rows: &[Vec<u16>],
    maps: &[GridMap],
    m: GridMap,
) -> Result<bool, AllocError>
    requires board { board_of g.now.field ≡ Some grid }
    requires rows { AreSortedRows (lines_of g.now) rows.now }
    requires maps { AreFitting g.now (number_of m) maps.now }
    ensures { IfOk result (λ yes. IsTrue yes ↔ Fits g.now m) }
{
    if !m.is_map_of(grid) {
        return Ok(false);
    }
    if let Some(yes) = told_by(maps, m) {
        return Ok(yes);
    }
    fits_board(alloc, g, grid, rows, m)
}

/// Whether the map of the board fits the game, whose lines the sorted rows are.
fn fits_board(
    alloc: Global,
    g: &Game,
    grid: Grid,
    rows: &[Vec<u16>],
    m: GridMap,
) -> Result<bool, AllocError>
    requires board { board_of g.now.field ≡ Some grid }
    requires rows { AreSortedRows (lines_of g.now) rows.now }
    requires map { IsMapOf grid m }
    ensures { IfOk result (λ yes. IsTrue yes ↔ Fits g.now m) }
{
    let table = images_of_points(alloc, m, grid, g.points())?;
    are_images(alloc, table.as_slice(), g.lines(), rows)
}

/// The board whose cells the game's points are.
fn board_of(g: &Game) -> Option<Grid>
    ensures { result ≡ board_of g.now.field }
{
    match &g.field {
        Field::Lines(field) => field.grid,
        Field::Graph(_) => None,
    }
}

/// For each point the point to which it goes.
fn images_of_points(
    alloc: Global,
    m: GridMap,
    grid: Grid,
    points: u16,
) -> Result<Vec<u16>, AllocError>
    requires map { IsMapOf grid m }
    requires few { grid.width * grid.height ≤ MAX_MEMBERS }
    ensures { IfOk result (λ table. table.items ≡ map (image_of m grid) (range_with_len 0 points)) }
{
    let mut table = Vec::with_capacity(alloc, usize::from(points))?;
    for v in 0..points {
        table.push(m.image_of(grid, v))?;
    }
    Ok(table)
}

/// Whether the images of the lines are the sorted rows in some order.
fn are_images(
    alloc: Global,
    table: &[u16],
    lines: &[Line],
    rows: &[Vec<u16>],
) -> Result<bool, AllocError>
    requires lines { All (IsRow (length table.now)) lines.now }
    requires rows { IsSorted row_cmp rows.now }
    ensures { IfOk result (λ yes. (f : ℕ → ℕ) → (back : ℕ → ℕ) → IsTableOf f back table.now
        → (IsTrue yes
        ↔ IsPermutation (map (image_line f (length table.now)) lines.now)
        (points_of_rows rows.now))) }
{
    let mut images = Vec::with_capacity(alloc, lines.len())?;
    for line in lines {
        let row = image_row(alloc, table, line)?;
        if !is_among(rows, &row) {
            return Ok(false);
        }
        images.push(row)?;
    }
    Ok(are_reordered(images, rows))
}

/// The images of the points of a line, in ascending order.
fn image_row(alloc: Global, table: &[u16], line: &Line) -> Result<Vec<u16>, AllocError>
    requires { IsRow (length table.now) line.now }
    ensures { IfOk result (λ row. (f : ℕ → ℕ) → (back : ℕ → ℕ) → IsTableOf f back table.now
        → row.items ≡ image_line f (length table.now) line.now) }
{
    let mut row = Vec::with_capacity(alloc, line.len())?;
    for v in line.as_slice() {
        row.push(table[*v as usize])?;
    }
    row.sort_unstable();
    Ok(row)
}
