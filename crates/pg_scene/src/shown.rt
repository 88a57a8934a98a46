//! What is to be seen of games and of nodes.
ghost use Rattle.std.specs.Prelude.{◌≡◌, ◌++◌, IfOk, IfSome, IfNone};
ghost use Rattle.pg_scene.specs.Prelude.{position_of, lines_of, point_count, start};
ghost use Rattle.pg_scene.specs.Items.{body_items, fault_items, line_items, point_items};
ghost use Rattle.pg_scene.specs.Scenes.{IsSceneOf, IsSceneOfGame, IsSceneOfNode, LacksNode};

use crate::bodies::{put_body, put_fault};
use crate::bridge::board_of;
use crate::item::{Item, Items};
use crate::lines::put_lines;
use crate::points::put_points;
use crate::scene::Scene;
use pg_base::{Memory, Side};
use pg_captions::{Look, game_legend, game_title, node_legend, node_title, seen_at};
use pg_cert::{Cert, Claim, Node};
use pg_game::{Game, Position};
use std::alloc::Global;

/// The points with their marks, and the lines.
fn game_items(alloc: Global, look: Look, g: &Game, p: &Position) -> Result<Vec<Item>, Memory>
    ensures { IfOk result (λ items. items.items
        ≡ point_items (point_count g.now) p.now ++ line_items look.lines (lines_of g.now)) }
{
    let mut items = Vec::new(alloc);
    put_points(&mut items, g.points(), p)?;
    put_lines(alloc, &mut items, look.lines, g.lines())?;
    Ok(items)
}

/// What is to be seen of a node of a claim of that side.
fn node_items(
    alloc: Global,
    look: Look,
    g: &Game,
    side: Side,
    node: &Node,
    fault: Option<u8>,
) -> Result<Items, Memory>
    ensures { IfOk result (λ items. items
        ≡ point_items (point_count g.now) (position_of node.now)
        ++ (line_items look.lines (lines_of g.now)
        ++ (body_items g.now (position_of node.now) side node.now.body ++ fault_items fault))) }
{
    let p = node.position();
    let mut items = game_items(alloc, look, g, &p)?;
    put_body(alloc, &mut items, g, &p, side, &node.body)?;
    put_fault(&mut items, fault)?;
    Ok(Items::from_vec(items))
}

/// Returns what is to be seen of a game: its board (at the places of the look's layout, if the game
/// is on lines without a grid and has as many points), each point with its mark, and each line if
/// `look` has lines and there are at most 30 of them; or the board without marks, if `look` says
/// how many blank boards are drawn. The title is the game's kind; the legend, if `look` has it,
/// says who is to move, how the points of the sides look, how large the game is, and how many lines
/// there are.
///
/// # Errors
///
/// `Memory` if memory ran out.
pub fn scene_of_game(alloc: Global, game: &Game, look: Look) -> Result<Scene, Memory>
    ensures { IfOk result (IsSceneOfGame look game.now) }
{
    let p = seen_at(look.blank, game.start());
    let title = game_title(alloc, game.kind)?;
    let board = board_of(alloc, look.layout, &game.field)?;
    let items = Items::from_vec(game_items(alloc, look, game, &p)?);
    let legend = game_legend(alloc, look, game, &p)?;
    Ok(Scene {
        title,
        board,
        items,
        legend,
    })
}

/// What is to be seen of a claim's node of that number.
fn node_scene(
    alloc: Global,
    look: Look,
    g: &Game,
    claim: &Claim,
    number: u32,
    node: &Node,
    fault: Option<u8>,
) -> Result<Scene, Memory>
    ensures { IfOk result (IsSceneOf look g.now claim.now number node.now fault) }
{
    let p = node.position();
    let title = node_title(alloc, g.kind, claim, number, fault)?;
    let board = board_of(alloc, look.layout, &g.field)?;
    let items = node_items(alloc, look, g, claim.side, node, fault)?;
    let legend = node_legend(alloc, look, g, claim, &p, &node.body, fault)?;
    Ok(Scene {
        title,
        board,
        items,
        legend,
    })
}

/// Returns what is to be seen of the node of that number, of the certificate's claim of that
/// number, both counted from 0: the game's board, each point with the mark that it has at the node,
/// each line if `look` has lines and there are at most 30 of them, and what the body names; of all
/// these the points of the game alone. None comes exactly if the certificate has no such node.
///
/// `fault` is the number of the node's fault, if it is invalid; the title says it, and the node is
/// crossed.
///
/// # Errors
///
/// `Memory` if memory ran out.
pub fn scene_of_node(
    alloc: Global,
    game: &Game,
    cert: &Cert,
    claim: u32,
    node: u32,
    fault: Option<u8>,
    look: Look,
) -> Result<Option<Scene>, Memory>
    ensures scene { IfOk result
        (λ found. IfSome found (IsSceneOfNode look game.now cert.now claim node fault)) }
    ensures none { IfOk result (λ found. IfNone found (LacksNode cert.now claim node)) }
{
    let Some(whole) = cert.claims.as_slice().get(claim as usize) else {
        return Ok(None);
    };
    let Some(part) = whole.nodes.as_slice().get(node as usize) else {
        return Ok(None);
    };
    Ok(Some(node_scene(alloc, look, game, whole, node, part, fault)?))
}
