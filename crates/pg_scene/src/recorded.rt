//! What is to be seen of recorded games.
ghost use Rattle.std.specs.Prelude.{◌≡◌, ◌++◌, IfOk};
ghost use Rattle.pg_scene.specs.Prelude.{lines_of, point_count};
ghost use Rattle.pg_scene.specs.Items.{line_items, point_items};
ghost use Rattle.pg_scene.specs.Recorded.{IsSceneOfMoves, move_items};

use crate::bridge::board_of;
use crate::item::{Item, Items};
use crate::lines::put_lines;
use crate::numbers::put_steps;
use crate::points::put_points;
use crate::scene::Scene;
use pg_base::Memory;
use pg_captions::{Look, moves_legend, moves_title};
use pg_game::{Game, Position};
use std::alloc::Global;

/// The points with their marks, the lines, and the points that were played.
fn moves_items(
    alloc: Global,
    look: Look,
    g: &Game,
    p: &Position,
    moves: &[u16],
) -> Result<Vec<Item>, Memory>
    ensures { IfOk result (λ items. items.items
        ≡ point_items (point_count g.now) p.now
        ++ (line_items look.lines (lines_of g.now) ++ move_items (point_count g.now) moves.now)) }
{
    let mut items = Vec::new(alloc);
    put_points(&mut items, g.points(), p)?;
    put_lines(alloc, &mut items, look.lines, g.lines())?;
    put_steps(&mut items, g.points(), moves)?;
    Ok(items)
}

/// Returns what is to be seen of a recorded game at a position: its board, each point with its
/// mark, each line if `look` has lines and there are at most 30 of them, and on each point of the
/// game that was played the number of the move, from 1. The title says how many moves were played.
/// The legend, if `look` has it whole, says that the game is over, if `over`, or who is to move,
/// and what the legend of a game says else.
///
/// # Errors
///
/// `Memory` if memory ran out.
pub fn scene_of_moves(
    alloc: Global,
    game: &Game,
    p: &Position,
    over: bool,
    moves: &[u16],
    look: Look,
) -> Result<Scene, Memory>
    ensures { IfOk result (IsSceneOfMoves look game.now p.now over moves.now) }
{
    let title = moves_title(alloc, game.kind, moves.len())?;
    let board = board_of(alloc, look.layout, &game.field)?;
    let items = Items::from_vec(moves_items(alloc, look, game, p, moves)?);
    let legend = moves_legend(alloc, look, game, p, over, moves)?;
    Ok(Scene {
        title,
        board,
        items,
        legend,
    })
}
