//! What is to be seen of games on vectors and of nodes.
ghost use Rattle.std.specs.Prelude.{◌≡◌, ◌≤◌, ◌++◌, IfOk, IfSome, IfNone, OnOk, length, map};
ghost use Rattle.pg_family_files.specs.Print.{signs_of};
ghost use Rattle.pg_scene.specs.Prelude.{position_of};
ghost use Rattle.pg_scene.specs.Items.{fault_items, point_items};
ghost use Rattle.pg_scene.specs.Scenes.{LacksNode};
ghost use Rattle.pg_scene.specs.VectorScenes.{IsSceneOfVector, IsSceneOfVectorGame};
ghost use Rattle.pg_scene.specs.VectorScenes.{IsSceneOfVectorNode, vector_board, vector_items};
ghost use Rattle.pg_scene.specs.VectorScenes.{vector_sets};

use crate::board::Board;
use crate::bodies::{put_fault, put_if};
use crate::item::{Item, Items, Set};
use crate::points::{put_members, put_points};
use crate::scene::Scene;
use pg_base::{MAX_EDGES, Memory, PointSet};
use pg_captions::{
    Look, Text, Texts, seen_at, signs_text, text_of, vector_count, vector_game_legend,
    vector_marks_at, vector_node_legend, vector_title,
};
use pg_cert::{Body, Cert, Claim, Node};
use pg_game::Position;
use pg_gf2::VecGame;
use std::alloc::Global;

/// The signs of each vector.
fn sign_rows(alloc: Global, g: &VecGame) -> Result<Vec<Text>, Memory>
    ensures { IfOk result (λ rows. rows.items ≡ map (signs_of g.now.rows) g.now.vectors) }
{
    let mut rows = Vec::new(alloc);
    for vector in g.vectors.as_slice() {
        rows.push(signs_text(alloc, g.rows, *vector)?)?;
    }
    Ok(rows)
}

/// The table of a game.
fn vector_board(alloc: Global, g: &VecGame) -> Result<Board, Memory>
    ensures { IfOk result (λ board. board ≡ vector_board g.now) }
{
    let rows = Texts::from_vec(sign_rows(alloc, g)?);
    let target = signs_text(alloc, g.rows, g.target)?;
    Ok(Board::Table { rows, target })
}

/// Puts the vectors of two sets, the target before them if it is in the first.
fn put_vector_sets(
    items: &mut Vec<Item>,
    n: u16,
    with_e: bool,
    first: &PointSet,
    second: &PointSet,
) -> Result<(), Memory>
    requires { n ≤ MAX_EDGES }
    ensures { OnOk result
        (items.new.items ≡ items.old.items ++ vector_sets n with_e first.now second.now) }
{
    put_if(items, with_e, Item::Extra { set: Set::First })?;
    put_members(items, n, Set::First, first)?;
    put_members(items, n, Set::Second, second)
}

/// Puts what a body names.
fn put_vector_body(items: &mut Vec<Item>, n: u16, body: &Body) -> Result<(), Memory>
    requires { n ≤ MAX_EDGES }
    ensures { OnOk result (items.new.items ≡ items.old.items ++ vector_items n body.now) }
{
    match body {
        Body::Trees {
            with_e,
            first,
            second,
        }
        | Body::Cuts {
            with_e,
            first,
            second,
        } => put_vector_sets(items, n, *with_e, first.as_set(), second.as_set()),
        _ => Ok(()),
    }
}

/// The vectors with their marks.
fn row_items(alloc: Global, g: &VecGame, p: &Position) -> Result<Vec<Item>, Memory>
    ensures { IfOk result (λ items. items.items ≡ point_items (length g.now.vectors) p.now) }
{
    let mut items = Vec::new(alloc);
    put_points(&mut items, vector_count(g), p)?;
    Ok(items)
}

/// What is to be seen of a node.
fn node_items(alloc: Global, g: &VecGame, node: &Node, fault: Option<u8>) -> Result<Items, Memory>
    ensures { IfOk result (λ items. items
        ≡ point_items (length g.now.vectors) (position_of node.now)
        ++ (vector_items (length g.now.vectors) node.now.body ++ fault_items fault)) }
{
    let p = node.position();
    let mut items = row_items(alloc, g, &p)?;
    put_vector_body(&mut items, vector_count(g), &node.body)?;
    put_fault(&mut items, fault)?;
    Ok(Items::from_vec(items))
}

/// Returns what is to be seen of a game on vectors: a table with the signs of each vector and of
/// the target, and each vector with its mark, or without marks, if `look` says how many blank
/// boards are drawn. The legend, if `look` has it, says who is to move, how the vectors of the
/// sides look, how many vectors there are, and how many entries each has.
///
/// # Errors
///
/// `Memory` if memory ran out.
pub fn scene_of_vector_game(alloc: Global, game: &VecGame, look: Look) -> Result<Scene, Memory>
    ensures { IfOk result (IsSceneOfVectorGame look game.now) }
{
    let p = seen_at(look.blank, vector_marks_at(game, game.turn));
    let title = text_of(alloc, "Game on vectors")?;
    let board = vector_board(alloc, game)?;
    let items = Items::from_vec(row_items(alloc, game, &p)?);
    let legend = vector_game_legend(alloc, look, game)?;
    Ok(Scene {
        title,
        board,
        items,
        legend,
    })
}

/// What is to be seen of a claim's node of that number.
fn node_scene(
    alloc: Global,
    look: Look,
    g: &VecGame,
    claim: &Claim,
    number: u32,
    node: &Node,
    fault: Option<u8>,
) -> Result<Scene, Memory>
    ensures { IfOk result (IsSceneOfVector look g.now claim.now number node.now fault) }
{
    let p = node.position();
    let title = vector_title(alloc, claim, number, fault)?;
    let board = vector_board(alloc, g)?;
    let items = node_items(alloc, g, node, fault)?;
    let legend = vector_node_legend(alloc, look.legend, g, claim, &p, &node.body, fault)?;
    Ok(Scene {
        title,
        board,
        items,
        legend,
    })
}

/// Returns what is to be seen of the node of that number, of the certificate's claim of that
/// number, both counted from 0: the game's table, each vector with the mark that it has at the
/// node, and the vectors of the two sets that the body names; of these the vectors of the game
/// alone. None comes exactly if the certificate has no such node.
///
/// `fault` is the number of the node's fault, if it is invalid; the title says it, and the node is
/// crossed.
///
/// # Errors
///
/// `Memory` if memory ran out.
pub fn scene_of_vector_node(
    alloc: Global,
    game: &VecGame,
    cert: &Cert,
    claim: u32,
    node: u32,
    fault: Option<u8>,
    look: Look,
) -> Result<Option<Scene>, Memory>
    ensures scene { IfOk result (λ found. IfSome found
        (IsSceneOfVectorNode look game.now cert.now claim node fault)) }
    ensures none { IfOk result (λ found. IfNone found (LacksNode cert.now claim node)) }
{
    let Some(whole) = cert.claims.as_slice().get(claim as usize) else {
        return Ok(None);
    };
    let Some(part) = whole.nodes.as_slice().get(node as usize) else {
        return Ok(None);
    };
    Ok(Some(node_scene(alloc, look, game, whole, node, part, fault)?))
}
