//! Sheets of several boards.
ghost use Rattle.std.specs.Prelude.{◌≡◌, ◌≤◌, ◌<◌, ◌*◌, IfOk};
ghost use Rattle.pg_draw.specs.Sheets.{boards_of, columns_for, copy_place, copy_places, rows_for};

use crate::measures::{MAX_BOARDS, MAX_COLUMNS, MAX_PICTURE_REACH};
use pg_base::Memory;
use pg_picture::{Place, Places};
use std::alloc::Global;

/// How many boards a sheet has.
pub(crate) fn boards_of(blank: Option<u32>) -> u32
    ensures boards { result ≡ boards_of blank }
    ensures some { 1 ≤ result }
    ensures few { result ≤ MAX_BOARDS }
{
    match blank {
        None => 1,
        Some(count) => count.min(MAX_BOARDS).max(1),
    }
}

/// In how many columns so many boards are.
pub(crate) fn columns_for(boards: u32) -> u32
    requires { 1 ≤ boards }
    ensures columns { result ≡ columns_for boards }
    ensures some { 1 ≤ result }
    ensures few { result ≤ MAX_COLUMNS }
{
    boards.min(MAX_COLUMNS)
}

/// In how many rows so many boards are.
pub(crate) fn rows_for(boards: u32) -> u32
    requires some { 1 ≤ boards }
    requires few { boards ≤ MAX_BOARDS }
    ensures rows { result ≡ rows_for boards }
    ensures few { result ≤ MAX_BOARDS }
{
    (boards + MAX_COLUMNS - 1) / MAX_COLUMNS
}

/// How much so many of that size take.
pub(crate) fn times(size: u32, count: u32) -> u32
    requires size { size < MAX_PICTURE_REACH }
    requires count { count ≤ MAX_BOARDS }
    ensures { result ≡ size * count }
{
    size * count
}

/// How far to the right and down the board of that number is.
fn copy_place(width: u32, height: u32, i: u32) -> Place
    requires width { width < MAX_PICTURE_REACH }
    requires height { height < MAX_PICTURE_REACH }
    requires few { i ≤ MAX_BOARDS }
    ensures { result ≡ copy_place width height i }
{
    Place {
        across: times(width, i % MAX_COLUMNS),
        down: times(height, i / MAX_COLUMNS),
    }
}

/// Where the boards after the first are.
pub(crate) fn copy_places(
    alloc: Global,
    width: u32,
    height: u32,
    boards: u32,
) -> Result<Places, Memory>
    requires width { width < MAX_PICTURE_REACH }
    requires height { height < MAX_PICTURE_REACH }
    requires some { 1 ≤ boards }
    requires few { boards ≤ MAX_BOARDS }
    ensures { IfOk result (λ places. places ≡ copy_places width height boards) }
{
    let mut places = Vec::new(alloc);
    for i in 0..boards - 1 {
        places.push(copy_place(width, height, i + 1))?;
    }
    Ok(Places::from_vec(places))
}
