//! A layout from the bytes of its file.
ghost use Rattle.std.specs.Prelude.{◌≡◌, ◌+◌, ◌≤◌, [], IfOk, length};
ghost use Rattle.pg_layout.specs.Prelude.{IsReadAs, reading};
ghost use Rattle.pg_layout.specs.LayoutFile.{after, ended, layout_of, spot_of};
ghost use Rattle.pg_layout.specs.Layouts.{IsLayout};
ghost use Rattle.pg_layout.specs.Views.{number_of};
ghost use Rattle.pg_layout.specs.declared.fault.TheConstants.{MAX_LAYOUT_BYTES};

use crate::fault::{Fault, MAX_LAYOUT_BYTES};
use crate::line::{Placed, read_line};
use crate::spot::{Spot, Spots};
use pg_text::{FileError, Lines};
use std::alloc::Global;

/// Returns the points that the lines place, of a board with `points` points.
fn read_placed(alloc: Global, points: u16, lines: Lines) -> Result<Vec<Placed>, FileError>
    requires { length lines ≤ MAX_LAYOUT_BYTES + 1 }
    ensures { IsReadAs number_of (λ v. v.items) result (reading (after points) 1 [] lines.entry) }
{
    let mut placed = Vec::new(alloc);
    let mut number = 0;
    for line in lines {
        number += 1;
        if let Err(error) = read_line(alloc, points, &mut placed, line) {
            return Err(error.at(number));
        }
    }
    Ok(placed)
}

/// Returns the place of a point, if a line places it.
fn spot_of(placed: &[Placed], point: u16) -> Option<Spot>
    ensures { result ≡ spot_of placed.now point }
{
    for q in placed {
        if q.point == point {
            return Some(q.spot);
        }
    }
    None
}

/// Returns the places of the points below `points`, or that one of them has none.
fn spots_of(alloc: Global, placed: &[Placed], points: u16) -> Result<Spots, FileError>
    ensures { IsReadAs number_of (λ s. s) result (ended points placed.now) }
{
    let mut spots = Vec::new(alloc);
    for p in 0..points {
        match spot_of(placed, p) {
            Some(spot) => spots.push(spot)?,
            None => return Err(FileError::at_line(Fault::Missing, 0)),
        }
    }
    Ok(Spots::from_vec(spots))
}

/// Reads the layout of a board with `points` points in the bytes of a file, or gives the first
/// fault with the number of its line.
///
/// A line without words and a line whose first byte is `#` are skipped; any other is `at P X Y`,
/// with any number of spaces between its words. It places the point P in column X and line Y, both
/// from 0 to `crate::MAX_STEPS`. Every point of the board has exactly one place, and any two places
/// differ by `crate::COLUMNS_APART` columns or by `crate::LINES_APART` lines at least (law
/// `what_is_read_is_a_layout`).
///
/// # Errors
///
/// `Bad` with the number of the fault: 1 for a file of more than `MAX_LAYOUT_BYTES` bytes, with
/// line 0, 2 for a line that isn't `at` with three numbers, 3 for a point that the board doesn't
/// have, 4 for a point that has a place, 5 for a column or a line that is too great, 6 for a place
/// that is too near an earlier one, 7 with line 0 if no line has a fault and a point has no place.
/// Of the faults of a line the one with the least number is given. Lines count from 1. `Memory` if
/// memory runs out.
#[tactic(auto, unfolding(crate::specs::LayoutFile::layout_of))]
pub fn read_layout(alloc: Global, text: &[u8], points: u16) -> Result<Spots, FileError>
    ensures read { IsReadAs number_of (λ s. s) result (layout_of points text.now) }
    ensures layout { IfOk result (IsLayout points) }
{
    if text.len() > MAX_LAYOUT_BYTES {
        return Err(FileError::at_line(Fault::Size, 0));
    }
    match read_placed(alloc, points, Lines::of(text)) {
        Ok(placed) => spots_of(alloc, &placed, points),
        Err(error) => Err(error),
    }
}
