//! A plan that grows by turns.

use crate::promising::moves_of;
use crate::spot::{Spot, State};
use pg_backing::decided;
use pg_base::{Grid, MAX_MEMBERS, Memory};
use pg_game::{Field, Game, Position};
use pg_maps::{GridMap, fitting_maps};
use pg_plan::{MAX_PLACES, Step};
use std::alloc::Global;
use std::collections::HashMap;

/// The spots of a plan in the making.
#[derive(Drop)]
pub(crate) struct Growth<'a> {
    pub(crate) game: &'a Game,
    /// The maps of the board that fit the game.
    maps: Vec<GridMap>,
    pub(crate) spots: Vec<Spot>,
    /// The number of each spot, by its position.
    numbers: HashMap<Position, u32>,
    /// How many spots are open whose game files aren't there yet.
    pub(crate) added: u32,
}

/// Returns the board whose cells the game's points are.
fn board_of(game: &Game) -> Option<Grid> {
    match &game.field {
        Field::Lines(field) => field.grid,
        Field::Graph(_) => None,
    }
}

/// Returns the image of a position, if the game has a board with the map.
fn image_of(game: &Game, map: GridMap, position: &Position) -> Option<Position> {
    let grid = board_of(game)?;
    let cells = u32::from(grid.width) * u32::from(grid.height);
    if cells > u32::from(MAX_MEMBERS) || !map.is_map_of(grid) {
        return None;
    }
    Some(map.image_position(grid, position))
}

impl<'a> Growth<'a> {
    /// Returns no spots.
    pub(crate) fn new(alloc: Global, game: &'a Game) -> Result<Growth<'a>, Memory> {
        Ok(Growth {
            game,
            maps: fitting_maps(alloc, game)?,
            spots: Vec::new(alloc),
            numbers: HashMap::new(alloc),
            added: 0,
        })
    }

    /// Returns the number of the spot with this position.
    fn find(&self, position: &Position) -> Option<u32> {
        match self.numbers.get(position) {
            Some(number) => Some(*number),
            None => None,
        }
    }

    /// Returns whether the spot of this number is no image of another.
    fn is_itself(&self, number: u32) -> bool {
        let i = number as usize;
        i < self.spots.len() && !matches!(self.spots[i].state, State::Image(..))
    }

    /// Returns the state of a position that is the image of a spot.
    fn image_state(&self, position: &Position) -> Option<State> {
        for map in &self.maps {
            if let Some(image) = image_of(self.game, *map, position) {
                if let Some(number) = self.find(&image) {
                    if self.is_itself(number) {
                        return Some(State::Image(map.reverse().number(), number));
                    }
                }
            }
        }
        None
    }

    /// Returns the state of a position that no spot has.
    fn state_of(&self, alloc: Global, position: &Position) -> Result<State, Memory> {
        if let Some(state) = self.image_state(position) {
            return Ok(state);
        }
        let span = decided(alloc, self.game, position)?;
        if span.is_open() {
            Ok(State::Open(None))
        } else {
            Ok(State::Decided)
        }
    }

    /// Adds a spot, and returns its number; or None if a plan has no room for it.
    pub(crate) fn push(
        &mut self,
        position: &Position,
        state: State,
    ) -> Result<Option<u32>, Memory> {
        if self.spots.len() >= MAX_PLACES as usize {
            return Ok(None);
        }
        let number = self.spots.len() as u32;
        if state.is_new() {
            self.added = self.added.saturating_add(1);
        }
        self.numbers.insert(*position, number)?;
        self.spots.push(Spot {
            position: *position,
            state,
        })?;
        Ok(Some(number))
    }

    /// Returns the number of the spot with this position, and adds one if there is none; or None if
    /// a plan has no room for it.
    pub(crate) fn put(&mut self, alloc: Global, position: Position) -> Result<Option<u32>, Memory> {
        if let Some(number) = self.find(&position) {
            return Ok(Some(number));
        }
        let state = self.state_of(alloc, &position)?;
        self.push(&position, state)
    }

    /// Returns the moves of a position, each to the spot of the next position; or None if a plan
    /// has no room for them.
    fn steps(&mut self, alloc: Global, position: &Position) -> Result<Option<Vec<Step>>, Memory> {
        let points = moves_of(alloc, self.game, position)?;
        let mut steps = Vec::with_capacity(alloc, points.len())?;
        for point in &points {
            if *point < MAX_MEMBERS {
                let next = self.game.after(position, *point);
                let Some(place) = self.put(alloc, next)? else {
                    return Ok(None);
                };
                steps.push(Step {
                    point: *point,
                    place,
                })?;
            }
        }
        Ok(Some(steps))
    }

    /// Splits an open spot by its moves. Returns false if a plan has no room for them.
    fn split(&mut self, alloc: Global, i: usize) -> Result<bool, Memory> {
        if i >= self.spots.len() || !self.spots[i].is_open() {
            return Ok(true);
        }
        let file = self.spots[i].file();
        let position = self.spots[i].position;
        let Some(steps) = self.steps(alloc, &position)? else {
            return Ok(false);
        };
        if file.is_none() {
            self.added = self.added.saturating_sub(1);
        }
        if i < self.spots.len() {
            self.spots[i].state = State::Split(file, steps);
        }
        Ok(true)
    }

    /// Splits an open spot by all turns of the side to move. Returns false if a plan has no room
    /// for them.
    pub(crate) fn split_turn(&mut self, alloc: Global, i: usize) -> Result<bool, Memory> {
        let first = self.spots.len();
        if !self.split(alloc, i)? {
            return Ok(false);
        }
        for next in first..MAX_PLACES as usize {
            if next >= self.spots.len() {
                return Ok(true);
            }
            if self.spots[next].is_within_turn(self.game) && !self.split(alloc, next)? {
                return Ok(false);
            }
        }
        Ok(true)
    }
}
