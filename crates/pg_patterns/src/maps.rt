//! The maps of the board that fit the game.
ghost use Rattle.std.specs.Prelude.{◌≤◌, ◌*◌};

use crate::small_set::SmallSet;
use crate::spot::Spot;
use pg_base::{Grid, MAX_MEMBERS, Memory};
use pg_game::{Field, Game};
use pg_maps::{GridMap, fitting_maps};
use std::alloc::Global;

/// The maps of the board that fit the game, by their places: the first leaves every point.
#[derive(Debug, Drop)]
pub struct Maps {
    maps: Vec<GridMap>,
    /// For each map the image of each point.
    images: Vec<[u8; 256]>,
}

/// Returns the board whose cells the game's points are.
fn board_of(g: &Game) -> Option<Grid> {
    match &g.field {
        Field::Lines(field) => field.grid,
        Field::Graph(_) => None,
    }
}

/// Returns the image of a point; it is the point if there is no board.
fn image_on(grid: Option<Grid>, map: GridMap, v: u8) -> u8 {
    let Some(grid) = grid else {
        return v;
    };
    let cells = u32::from(grid.width) * u32::from(grid.height);
    if cells > u32::from(MAX_MEMBERS) || !map.is_map_of(grid) {
        return v;
    }
    map.image_of(grid, u16::from(v)).min(255) as u8
}

/// Returns the image of each point.
fn images_of(grid: Option<Grid>, map: GridMap) -> [u8; 256] {
    let mut images = [0; 256];
    for v in 0..256usize {
        images[v] = image_on(grid, map, v as u8);
    }
    images
}

impl Maps {
    /// Returns the maps that fit the game.
    ///
    /// # Errors
    ///
    /// `Memory` if an allocation fails.
    pub fn of_game(alloc: Global, g: &Game) -> Result<Maps, Memory> {
        let grid = board_of(g);
        let maps = fitting_maps(alloc, g)?;
        let mut images = Vec::new(alloc);
        for map in &maps {
            images.push(images_of(grid, *map))?;
        }
        Ok(Maps { maps, images })
    }

    /// Returns the image of a point under a map.
    pub fn image(&self, map: u8, v: u8) -> u8 {
        match self.images.get(usize::from(map)) {
            Some(images) => images[usize::from(v)],
            None => v,
        }
    }

    /// Returns the image of a set under a map.
    pub fn image_of_set(&self, map: u8, set: SmallSet) -> SmallSet {
        if map == 0 {
            return set;
        }
        let mut images = SmallSet::empty();
        for v in set.members() {
            images = images.with(self.image(map, v));
        }
        images
    }

    /// Returns the place of the map, and 0 if it isn't one of these.
    fn place_of(&self, map: GridMap) -> u8 {
        for place in 0..8u8 {
            if let Some(known) = self.maps.get(usize::from(place)) {
                if *known == map {
                    return place;
                }
            }
        }
        0
    }

    /// Returns the place of the map that applies `first` and then `then`.
    pub fn followed_by(&self, first: u8, then: u8) -> u8 {
        let Some(one) = self.maps.get(usize::from(first)) else {
            return 0;
        };
        let Some(other) = self.maps.get(usize::from(then)) else {
            return 0;
        };
        self.place_of(one.followed_by(*other))
    }

    /// Returns the places of the maps, without the first, that keep the points of each side.
    ///
    /// # Errors
    ///
    /// `Memory` if an allocation fails.
    pub fn keeping(&self, alloc: Global, spot: &Spot) -> Result<Vec<u8>, Memory> {
        let mut places = Vec::new(alloc);
        for place in 1..8u8 {
            if usize::from(place) < self.maps.len()
                && self.image_of_set(place, spot.x) == spot.x
                && self.image_of_set(place, spot.y) == spot.y
            {
                places.push(place)?;
            }
        }
        Ok(places)
    }
}
