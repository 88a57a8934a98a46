//! Splitting positions of a plan further.
ghost use Rattle.std.specs.Prelude.{◌≤◌, IfOk, IfSome, vec_len};
ghost use Rattle.pg_split.specs.Pieces.{IsRefinedFrom};

use crate::growth::Growth;
use crate::numbering::{Split, next_file, plan_of};
use crate::spot::{Spot, State};
use pg_backing::positions_of;
use pg_base::{Kind, Memory};
use pg_game::{Game, Position};
use pg_plan::{MAX_GAME_FILES, Place, Plan, Step};
use std::alloc::Global;
use std::collections::HashMap;

/// Returns a copy of moves.
fn copy_steps(alloc: Global, steps: &[Step]) -> Result<Vec<Step>, Memory> {
    let copy = steps.to_vec(alloc)?;
    Ok(copy)
}

/// Returns the state of a position of a plan.
fn state_of(alloc: Global, place: &Place) -> Result<State, Memory> {
    match place {
        Place::Decided => Ok(State::Decided),
        Place::Image { map, place } => Ok(State::Image(*map, *place)),
        Place::Game { file, steps } => {
            if steps.as_slice().is_empty() {
                return Ok(State::Open(Some(*file)));
            }
            Ok(State::Split(Some(*file), copy_steps(alloc, steps.as_slice())?))
        }
        Place::Moves(steps) => Ok(State::Split(None, copy_steps(alloc, steps.as_slice())?)),
    }
}

/// Returns a growth with the positions of a plan; or None if no way leads to one of them, so that
/// the plan isn't that of the game.
fn growth_of<'a>(
    alloc: Global,
    game: &'a Game,
    plan: &[Place],
) -> Result<Option<Growth<'a>>, Memory> {
    let positions: Vec<Option<Position>> = positions_of(alloc, game, plan)?;
    let mut growth = Growth::new(alloc, game)?;
    for i in 0..plan.len().min(positions.len()) {
        let Some(position) = positions[i] else {
            return Ok(None);
        };
        growth.push(&position, state_of(alloc, &plan[i])?)?;
    }
    Ok(Some(growth))
}

/// Returns the number of the spot for each number of a game file.
fn spots_of(alloc: Global, spots: &[Spot]) -> Result<HashMap<u32, usize>, Memory> {
    let mut numbers = HashMap::new(alloc);
    for i in 0..spots.len() {
        if let Some(file) = spots[i].file() {
            numbers.insert(file, i)?;
        }
    }
    Ok(numbers)
}

/// Splits the positions of these files, each by a turn, in order, while at most `most` new game
/// files are needed. Returns how many were split so.
fn split_files(
    alloc: Global,
    growth: &mut Growth<'_>,
    files: &[u32],
    most: u32,
) -> Result<usize, Memory> {
    let numbers = spots_of(alloc, growth.spots.as_slice())?;
    for k in 0..files.len() {
        if let Some(i) = numbers.get(&files[k]) {
            if !growth.split_turn(alloc, *i)? || growth.added > most {
                return Ok(k);
            }
        }
    }
    Ok(files.len())
}

/// Returns a growth with the positions of a plan, of which those of the first files are split, as
/// many as need at most `most` new game files. None if the plan isn't that of the game.
fn grown_from<'a>(
    alloc: Global,
    game: &'a Game,
    plan: &[Place],
    files: &[u32],
    most: u32,
) -> Result<Option<Growth<'a>>, Memory> {
    let Some(mut growth) = growth_of(alloc, game, plan)? else {
        return Ok(None);
    };
    let count = split_files(alloc, &mut growth, files, most)?;
    if count >= files.len() {
        return Ok(Some(growth));
    }
    let Some(mut growth) = growth_of(alloc, game, plan)? else {
        return Ok(None);
    };
    split_files(alloc, &mut growth, &files[..count], most)?;
    Ok(Some(growth))
}

/// Splits the positions of these game files of a plan further, each by a turn, in this order, as
/// many as need at most `most` new game files. None if the plan isn't that of the game, or gets too
/// large for a file.
///
/// # Errors
///
/// `Memory` if memory runs out.
pub fn refine(
    alloc: Global,
    game: &Game,
    plan: &Plan,
    files: &[u32],
    most: u32,
) -> Result<Option<Split>, Memory>
    ensures refined { IfOk result (λ found. IfSome found (IsRefinedFrom game.now plan.now)) }
    ensures few { IfOk result
        (λ found. IfSome found (λ split. vec_len split.pieces ≤ most)) }
{
    if game.kind == Kind::Switching {
        return Ok(None);
    }
    let Some(first) = next_file(plan.as_slice()) else {
        return Ok(None);
    };
    let room = most.min(MAX_GAME_FILES.saturating_sub(first));
    let Some(mut growth) = grown_from(alloc, game, plan.as_slice(), files, room)? else {
        return Ok(None);
    };
    match plan_of(alloc, game, plan.as_slice(), first, &mut growth)? {
        Some(split) if split.pieces.len() <= most as usize => Ok(Some(split)),
        _ => Ok(None),
    }
}
