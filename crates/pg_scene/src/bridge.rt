//! The boards of games.
ghost use Rattle.std.specs.Prelude.{◌≡◌, ◌≤◌, ◌↔◌, ◌∷◌, [], ℕ, IfOk, IfSome, IfNone, IsTrue};
ghost use Rattle.pg_scene.specs.Limits.{IsBridge, IsSized};
ghost use Rattle.pg_scene.specs.Scenes.{IsBoardOf, IsDrawnGraph, laid_board, line_board};
ghost use Rattle.pg_gen.specs.declared.limits.TheConstants.{MAX_BRIDGE_ROWS};

use crate::board::Board;
use pg_base::{Memory, Points};
use pg_game::{Field, LineField};
use pg_gen::{MAX_BRIDGE_ROWS, bridge};
use pg_graph::{Ends, Graph};
use pg_layout::Chart;
use std::alloc::Global;

/// Whether the edges have the same ends in the same order.
fn are_same(ends: &Ends, others: &Ends) -> bool
    ensures { IsTrue result ↔ (ends.now ≡ others.now) }
{
    ends.as_slice() == others.as_slice()
}

/// Whether the graph has the vertices and the terminals of the Bridg-It board of so many rows.
fn is_sized(graph: &Graph, rows: u16) -> bool
    requires some { 1 ≤ rows }
    requires few { rows ≤ MAX_BRIDGE_ROWS }
    ensures { IsTrue result ↔ IsSized graph.now rows }
{
    graph.vertices == rows * (rows - 1) + 2 && graph.s == 0 && graph.t == 1
}

/// Whether the graph is the Bridg-It board of so many rows.
fn is_bridge(alloc: Global, graph: &Graph, rows: u16) -> Result<bool, Memory>
    requires some { 1 ≤ rows }
    requires few { rows ≤ MAX_BRIDGE_ROWS }
    ensures { IfOk result (λ same. IsTrue same
        ↔ IsBridge graph.now.vertices graph.now.ends (graph.now.s ∷ graph.now.t ∷ []) rows) }
{
    if !is_sized(graph, rows) {
        return Ok(false);
    }
    let Ok(game) = bridge(alloc, u32::from(rows)) else {
        return Err(Memory);
    };
    match &game.field {
        Field::Graph(board) => Ok(are_same(&graph.ends, &board.ends)),
        Field::Lines(_) => unreachable!(),
    }
}

/// The rows of the Bridg-It board that the graph is, and None exactly where it is none.
fn bridge_rows(alloc: Global, graph: &Graph) -> Result<Option<u32>, Memory>
    ensures found { IfOk result (λ rows. IfSome rows
        (IsBridge graph.now.vertices graph.now.ends (graph.now.s ∷ graph.now.t ∷ []))) }
    ensures missed { IfOk result (λ rows. IfNone rows
        ((r : ℕ) → IsBridge graph.now.vertices graph.now.ends (graph.now.s ∷ graph.now.t ∷ []) r
        → ⊥)) }
{
    for rows in 1..MAX_BRIDGE_ROWS as u16 + 1 {
        if is_bridge(alloc, graph, rows)? {
            return Ok(Some(u32::from(rows)));
        }
    }
    Ok(None)
}

/// The board of a graph with its terminals.
fn graph_board(alloc: Global, graph: &Graph) -> Result<Board, Memory>
    ensures { IfOk result
        (IsDrawnGraph graph.now.vertices graph.now.ends (graph.now.s ∷ graph.now.t ∷ [])) }
{
    let bridge = bridge_rows(alloc, graph)?;
    let ends = graph.ends.as_slice().to_vec(alloc)?;
    let terminals = [graph.s, graph.t].to_vec(alloc)?;
    Ok(Board::Graph {
        vertices: u32::from(graph.vertices),
        ends: Ends::from_vec(ends),
        terminals: Points::from_vec(terminals),
        bridge,
    })
}

/// The board of a graph all of whose vertices are to be joined, without terminals. An error is want
/// of memory.
pub fn joining_board(alloc: Global, graph: &Graph) -> Result<Board, Memory>
    ensures { IfOk result (IsDrawnGraph graph.now.vertices graph.now.ends []) }
{
    let ends = graph.ends.as_slice().to_vec(alloc)?;
    Ok(Board::Graph {
        vertices: u32::from(graph.vertices),
        ends: Ends::from_vec(ends),
        terminals: Points::from_vec(Vec::new(alloc)),
        bridge: None,
    })
}

/// The board of points: cells where there is a grid, else a ring.
fn line_board(field: &LineField) -> Board
    ensures { result ≡ line_board field.now.grid field.now.points }
{
    match field.grid {
        Some(grid) => Board::Grid {
            width: u32::from(grid.width),
            height: u32::from(grid.height),
        },
        None => Board::Ring {
            points: u32::from(field.points),
        },
    }
}

/// The board of points with a layout: without a grid they are at its places, if it has as many.
fn laid_board(layout: Option<Chart>, field: &LineField) -> Board
    ensures { result ≡ laid_board layout field.now.grid field.now.points }
{
    let Some(chart) = layout else {
        return line_board(field);
    };
    match field.grid {
        None if chart.points() == field.points => Board::Laid { chart },
        _ => line_board(field),
    }
}

/// The board of what a game is played on, where a layout may say the places of its points.
pub(crate) fn board_of(alloc: Global, layout: Option<Chart>, field: &Field) -> Result<Board, Memory>
    ensures { IfOk result (IsBoardOf layout field.now) }
{
    match field {
        Field::Lines(on) => Ok(laid_board(layout, on)),
        Field::Graph(graph) => graph_board(alloc, graph),
    }
}
