//! A plan from the bytes of its file.
ghost use Rattle.std.specs.Prelude.{◌≡◌, ◌≤◌, [], length, nat_lt};
ghost use Rattle.std.specs.List.{list_all};
ghost use Rattle.pg_plan.specs.Places.{names_earlier};
ghost use Rattle.pg_plan.specs.PlanFile.{after, plan_of, with_one};
ghost use Rattle.pg_plan.specs.Views.{number_of};
ghost use Rattle.pg_plan.specs.declared.fault.TheConstants.{MAX_PLAN_BYTES};
ghost use Rattle.pg_text.specs.Faults.{Becomes, IsReadAs, reading};

use crate::fault::{Fault, MAX_PLAN_BYTES};
use crate::line::place_of;
use crate::place::{MAX_PLACES, Place, Plan, Step};
use pg_text::{FileError, LineError, Lines};
use std::alloc::Global;

/// Whether the moves lead to positions of numbers below `count`.
fn are_earlier(count: usize, steps: &[Step]) -> bool
    ensures { result ≡ list_all (λ s. nat_lt s.place count) steps.now }
{
    steps.iter().all(|s| (s.place as usize) < count)
}

/// Whether the position names positions of numbers below `count` alone.
fn names_earlier(count: usize, place: &Place) -> bool
    ensures { result ≡ names_earlier count place.now }
{
    match place {
        Place::Decided => true,
        Place::Image { place, .. } => (*place as usize) < count,
        Place::Game { steps, .. } => are_earlier(count, steps.as_slice()),
        Place::Moves(steps) => are_earlier(count, steps.as_slice()),
    }
}

/// Adds one position.
fn add(places: &mut Vec<Place>, place: Place) -> Result<(), LineError<Fault>>
    ensures { Becomes result places.new.items (with_one places.old.items place) }
{
    let count = places.len();
    if !names_earlier(count, &place) {
        return Err(LineError::Fault(Fault::Order));
    }
    if count >= MAX_PLACES as usize {
        return Err(LineError::Fault(Fault::Limit));
    }
    places.push(place)?;
    Ok(())
}

/// Reads the next line.
#[tactic(auto, unfolding(crate::specs::PlanFile::after))]
fn read_line(alloc: Global, places: &mut Vec<Place>, line: &[u8]) -> Result<(), LineError<Fault>>
    ensures { Becomes result places.new.items (after places.old.items line.now) }
{
    let place = place_of(alloc, line)?;
    add(places, place)
}

/// What the lines after the first say.
fn read_places(alloc: Global, lines: Lines) -> Result<Vec<Place>, FileError>
    requires { length lines ≤ MAX_PLAN_BYTES }
    ensures { IsReadAs number_of (λ v. v.items) result (reading after 2 [] lines.entry) }
{
    let mut places = Vec::new(alloc);
    let mut number = 1;
    for line in lines {
        number += 1;
        if let Err(error) = read_line(alloc, &mut places, line) {
            return Err(error.at(number));
        }
    }
    Ok(places)
}

/// Reads the plan in the bytes of a file, or gives the first fault with the number of its line.
///
/// The format is strict: words stand after single spaces, no line is skipped, and the last line may
/// lack its line feed. Of the faults of a line the one with the least number is given. A plan that
/// is read has at most `crate::MAX_PLACES` positions, and each names earlier ones only (law
/// `what_is_read_is_a_plan`); a file of the first line alone is a plan without positions.
///
/// # Errors
///
/// `Bad` with the number of the fault: 1 for a file of more than `MAX_PLAN_BYTES` bytes, with line
/// 0, 2 for another first line or none, 3 for a line of none of the four forms, 4 for a word that
/// isn't the number or the move that must be there, 5 for a position that names one that doesn't
/// come before it, 6 for more than `crate::MAX_PLACES` positions. Lines count from 1. `Memory` if
/// memory runs out.
#[tactic(auto, unfolding(crate::specs::PlanFile::plan_of))]
pub fn read_plan(alloc: Global, bytes: &[u8]) -> Result<Plan, FileError>
    ensures { IsReadAs number_of (λ p. p) result (plan_of bytes.now) }
{
    if bytes.len() > MAX_PLAN_BYTES {
        return Err(FileError::at_line(Fault::Size, 0));
    }
    let mut lines = Lines::of(bytes);
    let Some(first) = lines.next() else {
        return Err(FileError::at_line(Fault::Header, 1));
    };
    if first != b"posgame-plan 1".as_slice() {
        return Err(FileError::at_line(Fault::Header, 1));
    }
    match read_places(alloc, lines) {
        Ok(places) => Ok(Plan::from_vec(places)),
        Err(error) => Err(error),
    }
}
