//! The spots of a growth as the positions of a plan.
ghost use Rattle.std.specs.Prelude.{◌≡◌, ◌<◌, ◌≤◌, IfOk, IfSome, true};
ghost use Rattle.std.specs.List.{All};
ghost use Rattle.pg_split.specs.Pieces.{ArePieces, CanBeSaid, IsFileBelow, IsPiece, IsSplitOf};

use crate::checking::is_true_plan;
use crate::growth::Growth;
use crate::places::is_plan;
use crate::spot::{Spot, State};
use pg_backing::is_position;
use pg_base::Memory;
use pg_game::{Game, Position};
use pg_plan::{MAX_GAME_FILES, MAX_PLAN_BYTES, Place, Plan, Step, Steps, print_plan};
use std::alloc::Global;

/// A position that a game file says.
#[derive(Clone, Copy, Debug, PartialEq, Eq)]
pub struct Piece {
    /// The number of the file: 1 to 99,999.
    pub file: u32,
    /// The position.
    pub position: Position,
}

/// A plan, and the positions that its game files are to say.
#[derive(Debug, Drop)]
pub struct Split {
    /// The plan.
    pub plan: Plan,
    /// The positions of the files that aren't there yet, by their numbers.
    pub pieces: Vec<Piece>,
}

/// The place of a spot in a plan: those with more points taken come first, and of those with as
/// many the one that was made first.
#[derive(Clone, Copy, Debug, PartialEq, Eq, PartialOrd, Ord, Hash)]
struct Rank {
    free: u32,
    spot: u32,
}

/// Returns the ranks of the spots in order.
fn ranks_of(alloc: Global, spots: &[Spot]) -> Result<Vec<Rank>, Memory> {
    let mut ranks = Vec::with_capacity(alloc, spots.len())?;
    let mut spot = 0u32;
    for next in spots {
        let free = u32::MAX - next.taken();
        ranks.push(Rank { free, spot })?;
        spot = spot.saturating_add(1);
    }
    ranks.sort_unstable();
    Ok(ranks)
}

/// Returns for each spot its number in the plan.
fn numbers_of(alloc: Global, ranks: &[Rank]) -> Result<Vec<u32>, Memory> {
    let mut numbers = vec![in alloc; 0u32; ranks.len()]?;
    let mut number = 0u32;
    for rank in ranks {
        let i = rank.spot as usize;
        if i < numbers.len() {
            numbers[i] = number;
        }
        number = number.saturating_add(1);
    }
    Ok(numbers)
}

/// Returns the number of a spot in the plan.
fn number_at(numbers: &[u32], spot: u32) -> u32 {
    let i = spot as usize;
    if i < numbers.len() { numbers[i] } else { 0 }
}

/// Returns the moves with the numbers of the plan.
fn steps_of(alloc: Global, steps: &[Step], numbers: &[u32]) -> Result<Steps, Memory> {
    let mut found = Vec::with_capacity(alloc, steps.len())?;
    for step in steps {
        found.push(Step {
            point: step.point,
            place: number_at(numbers, step.place),
        })?;
    }
    Ok(Steps::from_vec(found))
}

/// Returns a position with these moves, said by a file if it has one.
fn said_place(file: Option<u32>, steps: Steps) -> Place {
    match file {
        Some(file) => Place::Game { file, steps },
        None => Place::Moves(steps),
    }
}

/// Returns a spot as a position of the plan.
fn place_of(alloc: Global, spot: &Spot, numbers: &[u32]) -> Result<Place, Memory> {
    match &spot.state {
        State::Decided => Ok(Place::Decided),
        State::Image(map, of) => Ok(Place::Image {
            map: *map,
            place: number_at(numbers, *of),
        }),
        State::Open(file) => Ok(said_place(*file, Steps::from_vec(Vec::new(alloc)))),
        State::Split(file, steps) => {
            let steps = steps_of(alloc, steps, numbers)?;
            Ok(said_place(*file, steps))
        }
    }
}

/// Returns the spots as the positions of a plan.
fn places_of(alloc: Global, spots: &[Spot]) -> Result<Vec<Place>, Memory> {
    let ranks = ranks_of(alloc, spots)?;
    let numbers = numbers_of(alloc, ranks.as_slice())?;
    let mut places = Vec::with_capacity(alloc, ranks.len())?;
    for rank in &ranks {
        let i = rank.spot as usize;
        if i < spots.len() {
            let place = place_of(alloc, &spots[i], numbers.as_slice())?;
            places.push(place)?;
        }
    }
    Ok(places)
}

/// Returns whether a game file can say the position: one of the game, at the beginning of a turn.
fn can_be_said(game: &Game, position: &Position) -> bool
    ensures { result ≡ true → CanBeSaid game.now position.now }
{
    is_position(game, position) && position.left == game.bias_of(position.turn)
}

/// Gives the spot this game file, and returns its position, if it is open without a file and a game
/// file can say it.
fn give_file(game: &Game, file: u32, spot: &mut Spot) -> Option<Piece>
    requires { file < MAX_GAME_FILES }
    ensures piece { IfSome result (IsPiece game.now) }
    ensures numbered { IfSome result (λ piece. piece.file ≡ file) }
{
    let position = spot.position;
    if !spot.state.is_new() || !can_be_said(game, &position) {
        return None;
    }
    spot.state = State::Open(Some(file));
    Some(Piece { file, position })
}

/// Gives each open spot without a file the next number from `first` on, in the order in which they
/// were made, and returns those positions. Spots get none if all numbers are used.
fn give_files(
    alloc: Global,
    game: &Game,
    first: u32,
    spots: &mut [Spot],
) -> Result<Vec<Piece>, Memory>
    ensures { IfOk result (λ pieces. ArePieces game.now first pieces.items) }
{
    let mut pieces = Vec::new(alloc);
    let mut next = first;
    for i in 0..spots.len() {
        if next >= MAX_GAME_FILES {
            return Ok(pieces);
        }
        let Some(piece) = give_file(game, next, &mut spots[i]) else {
            continue;
        };
        pieces.push(piece)?;
        next += 1;
    }
    Ok(pieces)
}

/// Returns a number that is above that of the position's game file and at least `next`; or None if
/// there is no greater number.
fn number_above(next: u32, place: &Place) -> Option<u32>
    ensures more { IfSome result (λ number. next ≤ number) }
    ensures above { IfSome result (λ number. IsFileBelow number place.now) }
{
    match place {
        Place::Game { file, .. } => Some(next.max(file.checked_add(1)?)),
        Place::Decided | Place::Image { .. } | Place::Moves(_) => Some(next),
    }
}

/// Returns one more than the greatest number of a game file of the plan; or None if there is no
/// greater number.
pub(crate) fn next_file(places: &[Place]) -> Option<u32>
    ensures { IfSome result (λ number. All (IsFileBelow number) places.now) }
{
    let mut next = 1;
    for place in places {
        next = number_above(next, place)?;
    }
    Some(next)
}

/// Returns the plan of the spots, which grew from an old plan (empty if there is none), and the
/// positions that are to be written, to game files with numbers from `first` on. None if that is no
/// plan of the game, or one that is too large for a file.
pub(crate) fn plan_of(
    alloc: Global,
    game: &Game,
    old: &[Place],
    first: u32,
    growth: &mut Growth<'_>,
) -> Result<Option<Split>, Memory>
    ensures { IfOk result (λ found. IfSome found (IsSplitOf game.now old.now first)) }
{
    let pieces = give_files(alloc, game, first, growth.spots.as_mut_slice())?;
    let places = places_of(alloc, growth.spots.as_slice())?;
    if !is_plan(places.as_slice()) {
        return Ok(None);
    }
    if !is_true_plan(
        alloc,
        game,
        old,
        first,
        pieces.as_slice(),
        places.as_slice(),
    )? {
        return Ok(None);
    }
    let plan = Plan::from_vec(places);
    let text = print_plan(alloc, &plan)?;
    if text.len() > MAX_PLAN_BYTES {
        return Ok(None);
    }
    Ok(Some(Split { plan, pieces }))
}
