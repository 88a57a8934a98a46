//! Images of positions.
ghost use Rattle.std.specs.Prelude.{◌≡◌, ◌*◌, ◌≤◌};
ghost use Rattle.pg_base.specs.declared.limits.TheConstants.{MAX_MEMBERS};

use crate::grid_map::GridMap;
use pg_base::{Grid, PointSet};
use pg_game::Position;

impl GridMap {
    ghost use Rattle.pg_maps.specs.GridMaps.{IsMapOf, image_of};
    ghost use Rattle.pg_maps.specs.Images.{image_position, image_set};

    /// The position with the images of both sides' points, the same side to move, and as many
    /// points left of its turn.
    pub fn image_position(self, grid: Grid, p: &Position) -> Position
        requires map { IsMapOf grid self }
        requires few { grid.width * grid.height ≤ MAX_MEMBERS }
        ensures { result ≡ image_position (image_of self grid) p.now }
    {
        Position {
            x: self.image_set(grid, &p.x),
            y: self.image_set(grid, &p.y),
            turn: p.turn,
            left: p.left,
        }
    }

    /// The images of the points of a set.
    pub fn image_set(self, grid: Grid, set: &PointSet) -> PointSet
        requires map { IsMapOf grid self }
        requires few { grid.width * grid.height ≤ MAX_MEMBERS }
        ensures { result ≡ image_set (image_of self grid) set.now }
    {
        let mut image = PointSet::empty();
        let mut next = 0;
        while let Some(v) = set.first_from(next) {
            image.put(self.image_of(grid, v));
            next = v + 1;
        }
        image
    }
}
