//! Positions of a game, and their images under the maps of its board.
ghost use Rattle.std.specs.Prelude.{◌≡◌, ◌<◌, ◌≤◌, ◌*◌, true};
ghost use Rattle.pg_base.specs.declared.limits.TheConstants.{MAX_MEMBERS};
ghost use Rattle.pg_game.specs.Game.{IsPosition};
ghost use Rattle.pg_backing.specs.Ways.{has_map, may_take, source_by, source_of};
ghost use Rattle.pg_maps.specs.GridMaps.{IsMapOf, reverse_of};
ghost use Rattle.pg_maps.specs.Images.{board_of};

use pg_base::{Grid, Line, LineFault, Lines, MAX_MEMBERS, Memory};
use pg_game::{Field, Game, LineField, Misfit, Position};
use pg_maps::GridMap;
use std::alloc::Global;

/// Returns whether the point is one of the game and nobody has it.
pub fn may_take(game: &Game, position: &Position, point: u16) -> bool
    ensures exact { result ≡ may_take game.now position.now point }
    ensures small { result ≡ true → point < MAX_MEMBERS }
{
    point < game.points() && position.is_free(point)
}

/// Returns whether the position is one of the game.
pub fn is_position(game: &Game, position: &Position) -> bool
    ensures { result ≡ true → IsPosition game.now position.now }
{
    if !position.x.is_below(game.points()) || !position.y.is_below(game.points()) {
        return false;
    }
    if !position.x.shares_none(&position.y) {
        return false;
    }
    1 <= position.left && position.left <= game.bias_of(position.turn)
}

/// Returns the board whose cells the game's points are.
fn board_of(game: &Game) -> Option<Grid>
    ensures { result ≡ board_of game.now.field }
{
    match &game.field {
        Field::Lines(field) => field.grid,
        Field::Graph(_) => None,
    }
}

/// Returns whether the map is one of the board, whose cells are within the limits.
fn has_map(grid: Grid, map: GridMap) -> bool
    ensures exact { result ≡ has_map grid map }
    ensures few { result ≡ true → grid.width * grid.height ≤ MAX_MEMBERS }
    ensures back { result ≡ true → IsMapOf grid (reverse_of map) }
{
    let cells = u32::from(grid.width) * u32::from(grid.height);
    cells <= u32::from(MAX_MEMBERS) && map.is_map_of(grid)
}

/// Returns the position whose image under the map of the board is the one given.
fn source_by(grid: Grid, map: GridMap, image: &Position) -> Option<Position>
    ensures { result ≡ source_by grid map image.now }
{
    if has_map(grid, map) {
        Some(map.reverse().image_position(grid, image))
    } else {
        None
    }
}

/// Returns the position whose image under the map of this number is the one given, if the game has
/// a board with such a map.
pub(crate) fn source_of(game: &Game, map: u8, image: &Position) -> Option<Position>
    ensures { result ≡ source_of game.now map image.now }
{
    let grid = board_of(game)?;
    let map = GridMap::from_number(map)?;
    source_by(grid, map, image)
}

/// Returns copies of the lines.
fn copy_lines(alloc: Global, lines: &[Line]) -> Result<Option<Vec<Line>>, Memory> {
    let mut copies = Vec::with_capacity(alloc, lines.len())?;
    for line in lines {
        match Line::new(alloc, line.as_slice()) {
            Ok(copy) => copies.push(copy)?,
            Err(LineFault::Repeated) => return Ok(None),
            Err(LineFault::Memory) => return Err(Memory),
        }
    }
    Ok(Some(copies))
}

/// Returns a copy of a game on lines.
pub fn copy_of(alloc: Global, game: &Game) -> Result<Option<Game>, Memory> {
    let Field::Lines(field) = &game.field else {
        return Ok(None);
    };
    let Some(lines) = copy_lines(alloc, field.lines.as_slice())? else {
        return Ok(None);
    };
    let copy = LineField {
        points: field.points,
        grid: field.grid,
        lines: Lines::from_vec(lines),
    };
    match Game::new(
        game.kind,
        Field::Lines(copy),
        game.x,
        game.y,
        game.turn,
        game.bias,
    ) {
        Ok(game) => Ok(Some(game)),
        Err(Misfit) => Ok(None),
    }
}
