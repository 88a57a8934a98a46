//! Splitting a game.
ghost use Rattle.std.specs.Prelude.{◌≤◌, [], IfOk, IfSome, vec_len};
ghost use Rattle.pg_split.specs.Pieces.{IsSplitOf};

use crate::growth::Growth;
use crate::numbering::{Split, plan_of};
use pg_base::{Kind, Memory};
use pg_game::Game;
use std::alloc::Global;

/// The greatest number of positions into which a game is split.
pub const MAX_PIECES: u32 = 10_000;

/// The number of the first game file.
pub const FIRST_FILE: u32 = 1;

/// Splits each of the first spots that is open. Returns false if there are then more open ones than
/// may be, or a plan has no room for them.
fn split_level(alloc: Global, growth: &mut Growth<'_>, most: u32) -> Result<bool, Memory> {
    let count = growth.spots.len();
    for i in 0..count {
        if !growth.split_turn(alloc, i)? {
            return Ok(false);
        }
        if growth.added as usize > (most as usize).saturating_add(count - i) {
            return Ok(false);
        }
    }
    Ok(growth.added <= most)
}

/// Returns a growth of the game after so many turns; or None if there are then more open positions
/// than may be.
fn grown<'a>(
    alloc: Global,
    game: &'a Game,
    depth: u32,
    most: u32,
) -> Result<Option<Growth<'a>>, Memory> {
    let mut growth = Growth::new(alloc, game)?;
    growth.put(alloc, game.start())?;
    for _turn in 0..depth {
        if !split_level(alloc, &mut growth, most)? {
            return Ok(None);
        }
    }
    Ok(Some(growth))
}

/// Returns the plan of the game after so many turns, and whether none of its positions is open; or
/// None if there are more open positions than may be.
fn split_after(alloc: Global, game: &Game, depth: u32, most: u32) -> Result<Option<Split>, Memory>
    ensures split { IfOk result (λ found. IfSome found (IsSplitOf game.now [] FIRST_FILE)) }
    ensures few { IfOk result
        (λ found. IfSome found (λ split. vec_len split.pieces ≤ most)) }
{
    let Some(mut growth) = grown(alloc, game, depth, most)? else {
        return Ok(None);
    };
    match plan_of(alloc, game, &[], FIRST_FILE, &mut growth)? {
        Some(split) if split.pieces.len() <= most as usize => Ok(Some(split)),
        _ => Ok(None),
    }
}

/// Splits a game on lines into the positions after as many turns as leave at most `most` of them.
/// Positions that are decided at once are left out, and equal ones and images are there once. None
/// of a switching game, and if `most` is 0.
///
/// # Errors
///
/// `Memory` if memory runs out.
pub fn split(alloc: Global, game: &Game, most: u32) -> Result<Option<Split>, Memory>
    ensures split { IfOk result (λ found. IfSome found (IsSplitOf game.now [] FIRST_FILE)) }
    ensures few { IfOk result
        (λ found. IfSome found (λ split. vec_len split.pieces ≤ most)) }
{
    if game.kind == Kind::Switching {
        return Ok(None);
    }
    let mut best = None;
    for depth in 0..u32::from(game.points()) {
        let Some(split) = split_after(alloc, game, depth, most)? else {
            return Ok(best);
        };
        let is_done = split.pieces.is_empty();
        best = Some(split);
        if is_done {
            return Ok(best);
        }
    }
    Ok(best)
}
