//! What is to be seen of connectivity games and of claims.
ghost use Rattle.std.specs.Prelude.{◌≡◌, ◌≤◌, ◌++◌, IfOk, IfSome, IfNone, None, slice_get};
ghost use Rattle.pg_scene.specs.Prelude.{edge_count, marks_at};
ghost use Rattle.pg_scene.specs.Items.{fault_items, point_items};
ghost use Rattle.pg_scene.specs.SpanScenes.{IsSceneOfSpan, IsSceneOfSpanClaim, IsSceneOfSpanGame};
ghost use Rattle.pg_scene.specs.SpanScenes.{span_items};

use crate::bodies::put_fault;
use crate::bridge::joining_board;
use crate::item::{Item, Items};
use crate::points::put_points;
use crate::scene::Scene;
use crate::span_bodies::put_span_body;
use pg_base::{MAX_EDGES, Memory};
use pg_captions::{
    Look, marks_at, seen_at, span_claim_legend, span_game_legend, span_title, text_of,
};
use pg_game::Position;
use pg_span::{SpanBody, SpanCert, SpanClaim, SpanGame};
use std::alloc::Global;

/// How many edges the game has.
fn edge_count(g: &SpanGame) -> u16
    ensures count { result ≡ edge_count g.now.graph }
    ensures few { result ≤ MAX_EDGES }
{
    g.graph.edge_count()
}

/// The edges with their marks.
fn edge_items(alloc: Global, g: &SpanGame, p: &Position) -> Result<Vec<Item>, Memory>
    ensures { IfOk result (λ items. items.items ≡ point_items (edge_count g.now.graph) p.now) }
{
    let mut items = Vec::new(alloc);
    put_points(&mut items, edge_count(g), p)?;
    Ok(items)
}

/// What is to be seen of a claim.
fn claim_items(
    alloc: Global,
    g: &SpanGame,
    p: &Position,
    body: &SpanBody,
    fault: Option<u8>,
) -> Result<Items, Memory>
    ensures { IfOk result (λ items. items ≡ point_items (edge_count g.now.graph) p.now
        ++ (span_items g.now body.now ++ fault_items fault)) }
{
    let mut items = edge_items(alloc, g, p)?;
    put_span_body(&mut items, g, edge_count(g), body)?;
    put_fault(&mut items, fault)?;
    Ok(Items::from_vec(items))
}

/// Returns what is to be seen of a connectivity game: its graph, and each edge with its mark, or
/// without marks, if `look` says how many blank boards are drawn. The legend, if `look` has it,
/// says who is to move, how the edges of the sides look, and how large the graph is.
///
/// # Errors
///
/// `Memory` if memory ran out.
pub fn scene_of_span_game(alloc: Global, game: &SpanGame, look: Look) -> Result<Scene, Memory>
    ensures { IfOk result (IsSceneOfSpanGame look game.now) }
{
    let p = seen_at(look.blank, marks_at(game, game.turn));
    let title = text_of(alloc, "Connectivity game")?;
    let board = joining_board(alloc, &game.graph)?;
    let items = Items::from_vec(edge_items(alloc, game, &p)?);
    let legend = span_game_legend(alloc, look, game)?;
    Ok(Scene {
        title,
        board,
        items,
        legend,
    })
}

/// What is to be seen of a claim.
fn claim_scene(
    alloc: Global,
    look: Look,
    g: &SpanGame,
    claim: &SpanClaim,
    fault: Option<u8>,
) -> Result<Scene, Memory>
    ensures { IfOk result (IsSceneOfSpan look g.now claim.now fault) }
{
    let p = marks_at(g, claim.turn);
    let title = span_title(alloc, claim.side, fault)?;
    let board = joining_board(alloc, &g.graph)?;
    let items = claim_items(alloc, g, &p, &claim.body, fault)?;
    let legend = span_claim_legend(alloc, look, g, claim, fault)?;
    Ok(Scene {
        title,
        board,
        items,
        legend,
    })
}

/// Returns what is to be seen of the certificate's claim of that number, counted from 0: the game's
/// graph, each edge with its mark, and what the body names; of that the edges and vertices of the
/// game alone. None comes exactly if the certificate has no such claim.
///
/// `fault` is the number of the claim's fault, if it is invalid; the title says it, and the claim
/// is crossed.
///
/// # Errors
///
/// `Memory` if memory ran out.
pub fn scene_of_span_claim(
    alloc: Global,
    game: &SpanGame,
    cert: &SpanCert,
    claim: u32,
    fault: Option<u8>,
    look: Look,
) -> Result<Option<Scene>, Memory>
    ensures scene { IfOk result
        (λ found. IfSome found (IsSceneOfSpanClaim look game.now cert.now claim fault)) }
    ensures none { IfOk result (λ found. IfNone found (slice_get cert.now.claims claim ≡ None)) }
{
    let Some(whole) = cert.claims.as_slice().get(claim as usize) else {
        return Ok(None);
    };
    Ok(Some(claim_scene(alloc, look, game, whole, fault)?))
}
