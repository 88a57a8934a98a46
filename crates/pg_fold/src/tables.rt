//! Maps of a board as tables.
ghost use Rattle.std.specs.Prelude.{◌≡◌, ◌<◌, ◌≤◌, ◌*◌, IfOk, map};
ghost use Rattle.pg_fold.specs.Prelude.{from_list, All, MAX_MEMBERS, IsMapOf, board_of};
ghost use Rattle.pg_fold.specs.Tables.{AreOrdered, AreTables, AreTablesOf, IsTable, come_from};
ghost use Rattle.pg_fold.specs.Tables.{image_before};

use crate::marks::Marks;
use pg_base::{Grid, Memory, PointSet};
use pg_game::{Field, Game, Position};
use pg_maps::{GridMap, fitting_maps};
use std::alloc::Global;

/// A map of a board, and for each cell the one that the map takes there.
#[derive(Debug, Drop)]
pub(crate) struct MapTable {
    /// The map.
    pub(crate) map: GridMap,
    /// For each cell the one that the map takes there.
    pub(crate) sources: Vec<u16>,
}

impl MapTable {
    /// The table of a map.
    fn new(alloc: Global, grid: Grid, map: GridMap) -> Result<MapTable, Memory>
        requires map { IsMapOf grid map }
        requires few { grid.width * grid.height ≤ MAX_MEMBERS }
        ensures table { IfOk result (IsTable grid) }
        ensures map { IfOk result (λ table. table.map ≡ map) }
    {
        let back = map.reverse();
        let cells = grid.width * grid.height;
        let mut sources = Vec::with_capacity(alloc, usize::from(cells))?;
        for v in 0..cells {
            sources.push(back.image_of(grid, v))?;
        }
        Ok(MapTable { map, sources })
    }

    /// The point that the map takes to this one; what is no cell stays.
    fn source(&self, v: u16) -> u16
        requires table { All (λ u. u < MAX_MEMBERS) self.now.sources.items }
        requires point { v < MAX_MEMBERS }
        ensures point { result ≡ come_from self.now v }
        ensures small { result < MAX_MEMBERS }
    {
        match self.sources.get(usize::from(v)) {
            Some(source) => *source,
            None => v,
        }
    }

    /// The points that the map takes to these.
    fn sources_of(&self, points: &[u16]) -> PointSet
        requires table { All (λ u. u < MAX_MEMBERS) self.now.sources.items }
        requires points { All (λ v. v < MAX_MEMBERS) points.now }
        ensures { result ≡ from_list (map (come_from self.now) points.now) }
    {
        let mut set = PointSet::empty();
        for v in points {
            set.put(self.source(*v));
        }
        set
    }

    /// The position that the map takes to this one, whose marks these are.
    pub(crate) fn source_of(&self, marks: &Marks, p: &Position) -> Position
        requires table { All (λ u. u < MAX_MEMBERS) self.now.sources.items }
        requires x { All (λ v. v < MAX_MEMBERS) marks.now.x.items }
        requires y { All (λ v. v < MAX_MEMBERS) marks.now.y.items }
        ensures { result ≡ image_before self.now marks.now p.now }
    {
        Position {
            x: self.sources_of(marks.x.as_slice()),
            y: self.sources_of(marks.y.as_slice()),
            turn: p.turn,
            left: p.left,
        }
    }
}

/// The tables of maps of a board.
fn tables_of(alloc: Global, grid: Grid, maps: &[GridMap]) -> Result<Vec<MapTable>, Memory>
    requires maps { All (IsMapOf grid) maps.now }
    requires few { grid.width * grid.height ≤ MAX_MEMBERS }
    ensures { IfOk result (λ tables. AreTablesOf grid maps.now tables.items) }
{
    let mut tables = Vec::with_capacity(alloc, maps.len())?;
    for map in maps {
        tables.push(MapTable::new(alloc, grid, *map)?)?;
    }
    Ok(tables)
}

/// The tables of the maps that fit a game; none without a board.
pub(crate) fn fitting_tables(alloc: Global, g: &Game) -> Result<Vec<MapTable>, Memory>
    ensures tables { IfOk result (λ tables. AreTables g.now tables.items) }
    ensures ordered { IfOk result (λ tables. AreOrdered tables.items) }
{
    let Some(grid) = grid_of(g) else {
        return Ok(Vec::new(alloc));
    };
    let maps = fitting_maps(alloc, g)?;
    tables_of(alloc, grid, maps.as_slice())
}

/// The board whose cells the game's points are.
fn grid_of(g: &Game) -> Option<Grid>
    ensures { result ≡ board_of g.now.field }
{
    match &g.field {
        Field::Lines(field) => field.grid,
        Field::Graph(_) => None,
    }
}
