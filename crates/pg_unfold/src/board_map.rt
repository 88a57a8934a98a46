//! A map of a game's points by its board, where it has one.
ghost use Rattle.std.specs.Prelude.{◌≡◌, map, IfOk};
ghost use Rattle.pg_unfold.specs.Prelude.{ArePoints, Game, board_of, image_on, image_pair};
ghost use Rattle.pg_unfold.specs.Prelude.{image_set};
ghost use Rattle.pg_unfold.specs.Marks.{IsBoardMap};

use pg_base::{Grid, Memory, Pair, PointSet};
use pg_cert::EdgeSet;
use pg_game::{Field, Game};
use pg_maps::GridMap;
use std::alloc::Global;

/// The board whose cells the game's points are.
pub(crate) fn board_of(g: &Game) -> Option<Grid>
    ensures { result ≡ board_of g.now.field }
{
    match &g.field {
        Field::Lines(field) => field.grid,
        Field::Graph(_) => None,
    }
}

/// The point to which a point goes.
pub(crate) fn image_point(board: Option<Grid>, m: GridMap, v: u16) -> u16
    requires { IsBoardMap board m }
    ensures { result ≡ image_on board m v }
{
    match board {
        Some(grid) => m.image_of(grid, v),
        None => v,
    }
}

/// The points to which the points of a set go.
pub(crate) fn image_set(board: Option<Grid>, m: GridMap, set: &PointSet) -> PointSet
    requires map { IsBoardMap board m }
    requires points { ArePoints set.now }
    ensures { result ≡ image_set (image_on board m) set.now }
{
    match board {
        Some(grid) => m.image_set(grid, set),
        None => *set,
    }
}

/// The points to which points go, in the order of those.
pub(crate) fn image_points(
    alloc: Global,
    board: Option<Grid>,
    m: GridMap,
    points: &[u16],
) -> Result<Vec<u16>, Memory>
    requires { IsBoardMap board m }
    ensures { IfOk result (λ images. images.items ≡ map (image_on board m) points.now) }
{
    let mut images = Vec::with_capacity(alloc, points.len())?;
    for v in points {
        images.push(image_point(board, m, *v))?;
    }
    Ok(images)
}

/// The pairs to which pairs go, in the order of those.
pub(crate) fn image_pairs(
    alloc: Global,
    board: Option<Grid>,
    m: GridMap,
    pairs: &[Pair],
) -> Result<Vec<Pair>, Memory>
    requires { IsBoardMap board m }
    ensures { IfOk result (λ images. images.items ≡ map (image_pair (image_on board m)) pairs.now) }
{
    let mut images = Vec::with_capacity(alloc, pairs.len())?;
    for pair in pairs {
        let a = image_point(board, m, pair.a);
        let b = image_point(board, m, pair.b);
        images.push(Pair { a, b })?;
    }
    Ok(images)
}

/// The set of edges to which those of a set go.
pub(crate) fn image_edges(
    alloc: Global,
    board: Option<Grid>,
    m: GridMap,
    edges: &EdgeSet,
) -> Result<EdgeSet, Memory>
    requires map { IsBoardMap board m }
    requires points { ArePoints edges.now }
    ensures { IfOk result (λ images. images ≡ image_set (image_on board m) edges.now) }
{
    EdgeSet::new(alloc, image_set(board, m, edges.as_set()))
}
