//! Whether a plan is one of the game: each plan is checked so before it is given.
ghost use Rattle.std.specs.Prelude.{◌≡◌, ◌≢◌, ℕ, ◌<◌, ◌≤◌, ◌↔◌, [], IfOk, IfSome, Some, length};
ghost use Rattle.std.specs.Prelude.{slice_get, true};
ghost use Rattle.std.specs.List.{All, Contains, list_all, list_any};
ghost use Rattle.pg_base.specs.declared.kind.Kind.TheVariants.{Switching};
ghost use Rattle.std.specs.FinSet.{contains};
ghost use Rattle.pg_game.specs.Game.{is_filled, is_over, is_touched};
ghost use Rattle.pg_maps.specs.Images.{Fits, board_of, image_on, image_position};
ghost use Rattle.pg_maps.specs.declared.grid_map.GridMap.{GridMap};
ghost use Rattle.pg_plan.specs.declared.place.Place.TheVariants as places;
ghost use Rattle.pg_split.specs.declared.numbering.Piece.{Piece};
ghost use Rattle.pg_split.specs.Splits.{AreAll, AreMoves, AreOld, ArePositionsOf, AreTrueBelow};
ghost use Rattle.pg_split.specs.Splits.{AreWhole, AreWholeBelow, IsImageAt, IsSaid, IsTrueFile};
ghost use Rattle.pg_split.specs.Splits.{IsTruePlace, IsTruePlan, LeadsTo, moves_of, step_points};

use crate::numbering::Piece;
use pg_backing::positions_of;
use pg_base::{Grid, Kind, Line, MAX_MEMBERS, Memory, PointSet};
use pg_game::{Field, Game, Position, is_over_by};
use pg_maps::{GridMap, fitting_maps};
use pg_plan::{Place, Step};
use std::alloc::Global;

/// Returns whether the position of a number is this one.
fn is_at(positions: &[Position], number: usize, position: &Position) -> bool
    ensures { result ≡ true → slice_get positions.now number ≡ Some position.now }
{
    number < positions.len() && positions[number].is_same(position)
}

/// Returns whether a move is one of the position, and the position of its number is the one after
/// it.
fn leads_to(game: &Game, positions: &[Position], position: &Position, step: &Step) -> bool
    ensures { result ≡ true → LeadsTo game.now positions.now position.now step.now }
{
    if step.point >= game.points() || !position.is_free(step.point) {
        return false;
    }
    is_at(
        positions,
        step.place as usize,
        &game.after(position, step.point),
    )
}

/// Returns whether each move is one of the position and leads to the position after it.
fn all_lead_to(game: &Game, positions: &[Position], position: &Position, steps: &[Step]) -> bool
    ensures { result ≡ true
        → All (LeadsTo game.now positions.now position.now) steps.now }
{
    for step in steps {
        if !leads_to(game, positions, position, step) {
            return false;
        }
    }
    true
}

/// Returns whether the set has all points of a line.
fn fills_some(points: &PointSet, lines: &[Line]) -> bool
    requires { All (All (λ v. v < MAX_MEMBERS)) lines.now }
    ensures { result ≡ list_any (is_filled points.now) lines.now }
{
    lines.iter().any(|line| points.has_all(line.as_slice()))
}

/// Returns whether the set has a point of each line.
fn touches_all(points: &PointSet, lines: &[Line]) -> bool
    requires { All (All (λ v. v < MAX_MEMBERS)) lines.now }
    ensures { result ≡ list_all (is_touched points.now) lines.now }
{
    lines.iter().all(|line| points.meets(line.as_slice()))
}

/// Returns whether the game is over.
fn is_over(game: &Game, position: &Position) -> bool
    requires { game.now.kind ≢ Switching }
    ensures { result ≡ is_over game.now position.now }
{
    let lines = game.lines();
    let x_filled = fills_some(&position.x, lines);
    let y_filled = fills_some(&position.y, lines);
    let touched = touches_all(&position.y, lines);
    let full = game.is_full(position);
    is_over_by(game.kind, x_filled, y_filled, touched, full)
}

/// Returns the points of moves.
fn points_of(steps: &[Step]) -> PointSet
    ensures { (v : ℕ) → contains result v ≡ true → Contains (step_points steps.now) v }
{
    let mut points = PointSet::empty();
    for step in steps {
        if step.point < MAX_MEMBERS {
            points.put(step.point);
        }
    }
    points
}

/// Returns whether the game goes on, and each move is one of the position and leads to the position
/// after it.
fn are_moves(game: &Game, positions: &[Position], position: &Position, steps: &[Step]) -> bool
    requires { game.now.kind ≢ Switching }
    ensures { result ≡ true → AreMoves game.now positions.now position.now steps.now }
{
    !is_over(game, position) && all_lead_to(game, positions, position, steps)
}

/// Returns whether each free point of the position is that of a move.
fn are_all(game: &Game, position: &Position, steps: &[Step]) -> bool
    ensures { result ≡ true → AreAll game.now position.now steps.now }
{
    let others = game.free_points(position).without(&points_of(steps));
    others.is_empty()
}

/// Returns the moves that a plan has of a position.
fn moves_of(place: &Place) -> &[Step]
    ensures { result.now ≡ moves_of place.now }
{
    match place {
        Place::Decided | Place::Image { .. } => &[],
        Place::Game { steps, .. } => steps.as_slice(),
        Place::Moves(steps) => steps.as_slice(),
    }
}

/// Returns whether moves have the same points in the same order.
fn have_same_points(steps: &[Step], others: &[Step]) -> bool
    ensures { result ≡ true → step_points steps.now ≡ step_points others.now }
{
    if steps.len() != others.len() {
        return false;
    }
    for i in 0..steps.len() {
        if steps[i].point != others[i].point {
            return false;
        }
    }
    true
}

/// Returns whether an old plan has moves of just these points at some position.
fn are_old(old: &[Place], steps: &[Step]) -> bool
    ensures { result ≡ true → AreOld old.now steps.now }
{
    for place in old {
        if have_same_points(moves_of(place), steps) {
            return true;
        }
    }
    false
}

/// Returns whether the moves, if there are any, are all that the position has, or those of an old
/// plan.
fn are_whole(game: &Game, old: &[Place], position: &Position, steps: &[Step]) -> bool
    ensures { result ≡ true → AreWhole game.now old.now position.now steps.now }
{
    steps.is_empty() || are_all(game, position, steps) || are_old(old, steps)
}

/// Returns whether so are the moves of each position of the plan.
fn are_all_whole(game: &Game, old: &[Place], positions: &[Position], plan: &[Place]) -> bool
    ensures { result ≡ true
        → AreWholeBelow game.now old.now positions.now plan.now (length plan.now) }
{
    if positions.len() != plan.len() {
        return false;
    }
    for i in 0..plan.len() {
        if !are_whole(game, old, &positions[i], moves_of(&plan[i])) {
            return false;
        }
    }
    true
}

/// Returns the board whose cells the game's points are.
fn board_of(game: &Game) -> Option<Grid>
    ensures { result ≡ board_of game.now.field }
{
    match &game.field {
        Field::Lines(field) => field.grid,
        Field::Graph(_) => None,
    }
}

/// Returns the image of a position under a map, if the game has a board with the map.
fn image_of(game: &Game, map: GridMap, position: &Position) -> Option<Position>
    ensures { IfSome result
        (λ image. image ≡ image_position (image_on (board_of game.now.field) map) position.now) }
{
    let grid = board_of(game)?;
    let cells = u32::from(grid.width) * u32::from(grid.height);
    if cells > u32::from(MAX_MEMBERS) || !map.is_map_of(grid) {
        return None;
    }
    Some(map.image_position(grid, position))
}

/// Returns whether the map is one of those that fit the game.
fn is_fitting(game: &Game, maps: &[GridMap], map: &GridMap) -> bool
    requires { (m : GridMap) → Contains maps.now m ↔ Fits game.now m }
    ensures { result ≡ true → Fits game.now map.now }
{
    maps.contains(map)
}

/// Returns whether the position is the image of the one of a number under the map of a number, one
/// of these.
fn is_image(
    game: &Game,
    maps: &[GridMap],
    positions: &[Position],
    position: &Position,
    map: u8,
    place: u32,
) -> bool
    requires { (m : GridMap) → Contains maps.now m ↔ Fits game.now m }
    ensures { result ≡ true → IsImageAt game.now positions.now position.now map place }
{
    let Some(map) = GridMap::from_number(map) else {
        return false;
    };
    let i = place as usize;
    if !is_fitting(game, maps, &map) || i >= positions.len() {
        return false;
    }
    let Some(image) = image_of(game, map, &positions[i]) else {
        return false;
    };
    position.is_same(&image)
}

/// Returns whether the file of a number is to say this position, or has a number below the first.
fn is_piece(first: u32, pieces: &[Piece], position: &Position, file: u32) -> bool
    ensures { result ≡ true
        → first ≤ file
        → Contains pieces.now (record { file = file; position = position.now }) }
{
    if file < first {
        return true;
    }
    let i = (file - first) as usize;
    i < pieces.len() && pieces[i].file == file && pieces[i].position.is_same(position)
}

/// Returns whether what the plan says of the file of a position is true.
fn is_true_file(
    game: &Game,
    first: u32,
    positions: &[Position],
    pieces: &[Piece],
    position: &Position,
    file: u32,
    steps: &[Step],
) -> bool
    requires { game.now.kind ≢ Switching }
    ensures { result ≡ true
        → IsTrueFile game.now first positions.now pieces.now position.now file steps.now }
{
    if steps.is_empty() {
        return is_piece(first, pieces, position, file);
    }
    file < first && are_moves(game, positions, position, steps)
}

/// Returns whether what the plan says of a position is true, where these are the maps that fit the
/// game.
fn is_true_place(
    game: &Game,
    maps: &[GridMap],
    first: u32,
    positions: &[Position],
    pieces: &[Piece],
    position: &Position,
    place: &Place,
) -> bool
    requires lines { game.now.kind ≢ Switching }
    requires maps { (m : GridMap) → Contains maps.now m ↔ Fits game.now m }
    ensures { result ≡ true
        → IsTruePlace game.now first positions.now pieces.now position.now place.now }
{
    match place {
        Place::Decided => true,
        Place::Image { map, place } => is_image(game, maps, positions, position, *map, *place),
        Place::Game { file, steps } => is_true_file(
            game,
            first,
            positions,
            pieces,
            position,
            *file,
            steps.as_slice(),
        ),
        Place::Moves(steps) => {
            let steps = steps.as_slice();
            !steps.is_empty() && are_moves(game, positions, position, steps)
        }
    }
}

/// Returns whether what the plan says of each position is true, where these are the maps that fit
/// the game.
fn are_true_places(
    game: &Game,
    maps: &[GridMap],
    first: u32,
    positions: &[Position],
    pieces: &[Piece],
    plan: &[Place],
) -> bool
    requires lines { game.now.kind ≢ Switching }
    requires maps { (m : GridMap) → Contains maps.now m ↔ Fits game.now m }
    ensures count { result ≡ true → length positions.now ≡ length plan.now }
    ensures each { result ≡ true
        → AreTrueBelow game.now first positions.now pieces.now plan.now (length plan.now) }
{
    if positions.len() != plan.len() {
        return false;
    }
    for i in 0..plan.len() {
        if !is_true_place(
            game,
            maps,
            first,
            positions,
            pieces,
            &positions[i],
            &plan[i],
        ) {
            return false;
        }
    }
    true
}

/// Returns whether the plan says of a position only that the file of this number says it.
fn is_game(place: &Place, number: u32) -> bool
    ensures { result ≡ true → place.now ≡ places.Game number [] }
{
    match place {
        Place::Game { file, steps } => *file == number && steps.as_slice().is_empty(),
        Place::Decided | Place::Image { .. } | Place::Moves(_) => false,
    }
}

/// Returns whether this number is that of the piece's position, of which the plan says that the
/// piece's file says it.
fn is_said(positions: &[Position], plan: &[Place], piece: &Piece, number: usize) -> bool
    ensures { result ≡ true → IsSaid positions.now plan.now piece.now }
{
    number < plan.len()
        && is_game(&plan[number], piece.file)
        && is_at(positions, number, &piece.position)
}

/// Returns whether the plan names the file of each piece, where these are the numbers of their
/// positions.
fn are_said(positions: &[Position], plan: &[Place], pieces: &[Piece], numbers: &[usize]) -> bool
    ensures { result ≡ true → All (IsSaid positions.now plan.now) pieces.now }
{
    if numbers.len() < pieces.len() {
        return false;
    }
    let mut i = 0;
    for piece in pieces {
        if !is_said(positions, plan, piece, numbers[i]) {
            return false;
        }
        i += 1;
    }
    true
}

/// Returns whether these are the positions of the plan's numbers, in which the pieces are those of
/// the files with numbers from `first` on, by the maps that fit the game, and the numbers of the
/// pieces' positions.
fn are_positions_of(
    game: &Game,
    maps: &[GridMap],
    first: u32,
    pieces: &[Piece],
    plan: &[Place],
    positions: &[Position],
    numbers: &[usize],
) -> bool
    requires lines { game.now.kind ≢ Switching }
    requires maps { (m : GridMap) → Contains maps.now m ↔ Fits game.now m }
    ensures { result ≡ true
        → ArePositionsOf game.now first pieces.now plan.now positions.now }
{
    if !is_at(positions, plan.len().saturating_sub(1), &game.start()) {
        return false;
    }
    if !are_true_places(game, maps, first, positions, pieces, plan) {
        return false;
    }
    are_said(positions, plan, pieces, numbers)
}

/// Returns the number of the position of each of so many files with numbers from the first on.
fn numbers_of(
    alloc: Global,
    first: u32,
    count: usize,
    plan: &[Place],
) -> Result<Vec<usize>, Memory> {
    let mut numbers = vec![in alloc; 0usize; count]?;
    for number in 0..plan.len() {
        if let Place::Game { file, .. } = &plan[number] {
            let i = file.saturating_sub(first) as usize;
            if *file >= first && i < numbers.len() {
                numbers[i] = number;
            }
        }
    }
    Ok(numbers)
}

/// Returns the positions of the plan's numbers, if each has one.
fn all_positions_of(
    alloc: Global,
    game: &Game,
    plan: &[Place],
) -> Result<Option<Vec<Position>>, Memory> {
    let found = positions_of(alloc, game, plan)?;
    let mut positions = Vec::with_capacity(alloc, found.len())?;
    for next in &found {
        match next {
            Some(position) => positions.push(*position)?,
            None => return Ok(None),
        }
    }
    Ok(Some(positions))
}

/// Returns whether the game is one on lines.
fn is_on_lines(game: &Game) -> bool
    ensures { result ≡ true → game.now.kind ≢ Switching }
{
    !matches!(game.kind, Kind::Switching)
}

/// Returns whether the plan, which grew from an old one (empty if there is none), is one of the
/// game, in which the pieces are the positions of the files with numbers from `first` on.
pub(crate) fn is_true_plan(
    alloc: Global,
    game: &Game,
    old: &[Place],
    first: u32,
    pieces: &[Piece],
    plan: &[Place],
) -> Result<bool, Memory>
    ensures { IfOk result
        (λ yes. yes ≡ true → IsTruePlan game.now old.now first pieces.now plan.now) }
{
    if !is_on_lines(game) {
        return Ok(false);
    }
    let Some(found) = all_positions_of(alloc, game, plan)? else {
        return Ok(false);
    };
    let numbers = numbers_of(alloc, first, pieces.len(), plan)?;
    let maps = fitting_maps(alloc, game)?;
    if !are_all_whole(game, old, found.as_slice(), plan) {
        return Ok(false);
    }
    Ok(are_positions_of(
        game,
        maps.as_slice(),
        first,
        pieces,
        plan,
        found.as_slice(),
        numbers.as_slice(),
    ))
}
