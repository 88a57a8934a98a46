//! The positions of a plan, by the game that was split.
ghost use Rattle.std.specs.Prelude.{◌≡◌, ◌<◌, ◌==◌, Some, None, IfOk, get_or, length};
ghost use Rattle.std.specs.Prelude.{if◌then◌else◌};
ghost use Rattle.pg_backing.specs.Ways.{ArePositionsFrom, ArePut, moved, way, way_from};
ghost use Rattle.pg_plan.specs.declared.place.Place.TheVariants as places;

use crate::board::{may_take, source_of};
use pg_base::Memory;
use pg_game::{Game, Position};
use pg_plan::{Place, Step};
use std::alloc::Global;

/// Puts the position at its number, unless there is one already.
fn put(positions: &mut [Option<Position>], i: usize, position: Position)
    ensures { ArePut (λ j. if i == j then Some position else None) positions.old positions.new }
{
    if i < positions.len() {
        positions[i] = positions[i].or(Some(position));
    }
}

/// Puts the positions after the moves at their numbers.
fn put_steps(game: &Game, position: &Position, steps: &[Step], positions: &mut [Option<Position>])
    ensures { ArePut (moved game.now position.now steps.now) positions.old positions.new }
{
    for step in steps {
        if may_take(game, position, step.point) {
            put(
                positions,
                step.place as usize,
                game.after(position, step.point),
            );
        }
    }
}

/// Puts the position of which this one is the image under the map of a number.
fn put_source(
    game: &Game,
    map: u8,
    place: u32,
    position: &Position,
    positions: &mut [Option<Position>],
)
    ensures { ArePut (λ j. way game.now (places.Image map place) position.now j)
        positions.old positions.new }
{
    if let Some(source) = source_of(game, map, position) {
        put(positions, place as usize, source);
    }
}

/// Puts the positions to which one leads at their numbers.
fn put_next(game: &Game, place: &Place, position: &Position, positions: &mut [Option<Position>])
    ensures { ArePut (way game.now place.now position.now) positions.old positions.new }
{
    match place {
        Place::Decided => {}
        Place::Image { map, place } => put_source(game, *map, *place, position, positions),
        Place::Game { steps, .. } => put_steps(game, position, steps.as_slice(), positions),
        Place::Moves(steps) => put_steps(game, position, steps.as_slice(), positions),
    }
}

/// Puts the positions to which that of number `i` leads at their numbers, if it has one.
fn go_on(game: &Game, place: &Place, i: usize, positions: &mut [Option<Position>])
    requires { i < length positions.old }
    ensures { ArePut (way_from game.now place.now (get_or positions.old i None))
        positions.old positions.new }
{
    if let Some(position) = positions[i] {
        put_next(game, place, &position, positions);
    }
}

/// Returns the positions of a plan's numbers: the last is that of the game, and each other one is
/// that to which the first way leads. None where no way does.
pub fn positions_of(
    alloc: Global,
    game: &Game,
    plan: &[Place],
) -> Result<Vec<Option<Position>>, Memory>
    ensures { IfOk result
        (λ positions. ArePositionsFrom game.now plan.now positions.items) }
{
    let mut positions: Vec<Option<Position>> = vec![in alloc; None; plan.len()]?;
    let root = plan.len().saturating_sub(1);
    put(positions.as_mut_slice(), root, game.start());
    for done in 0..plan.len() {
        let i = plan.len() - 1 - done;
        go_on(game, &plan[i], i, positions.as_mut_slice());
    }
    Ok(positions)
}
