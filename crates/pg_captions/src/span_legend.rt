//! Titles and legends of connectivity games and of claims.
ghost use Rattle.std.specs.Prelude.{◌≡◌, ◌++◌, ◌∷◌, [], IfOk, OnOk, codes, false, length};
ghost use Rattle.pg_captions.specs.Prelude.{decimal, edge_count, marks_at};
ghost use Rattle.pg_captions.specs.Marks.{marks_lines, seen_sets};
ghost use Rattle.pg_captions.specs.Legends.{graph_line, sets_lines};
ghost use Rattle.pg_captions.specs.SpanLegends.{first_lines, span_by, span_claim_lines};
ghost use Rattle.pg_captions.specs.SpanLegends.{span_game_by};
ghost use Rattle.pg_captions.specs.SpanLegends.{span_lines, span_position_lines, span_said_by};
ghost use Rattle.pg_captions.specs.SpanLegends.{span_title};
ghost use Rattle.pg_captions.specs.Words.{result_words};
ghost use Rattle.pg_base.specs.declared.goal.Goal.TheVariants.{Win};
ghost use Rattle.pg_base.specs.declared.kind.Kind.TheVariants.{MakerBreaker};

use crate::body_words::put_sets_lines;
use crate::legend::{claim_line, graph_line, put_fault_lines, put_turn};
use crate::look::{Legend, Look, seen_at};
use crate::marks::{put_if, put_marks, seen_sets};
use crate::text::{Text, Texts};
use crate::words::{put_line, put_result};
use pg_base::{Goal, Kind, Memory, PointSet, Side};
use pg_game::Position;
use pg_graph::Graph;
use pg_span::{SpanBody, SpanClaim, SpanGame};
use std::alloc::Global;

/// Returns the game's marks with a side to move.
pub fn marks_at(g: &SpanGame, turn: Side) -> Position
    ensures { result ≡ marks_at g.now turn }
{
    Position {
        x: g.x,
        y: g.y,
        turn,
        left: 1,
    }
}

/// What the side of a valid claim reaches.
fn sound_title(alloc: Global, side: Side) -> Result<Text, Memory>
    ensures { IfOk result (λ text. text ≡ result_words MakerBreaker side Win) }
{
    let mut words = String::new(alloc);
    put_result(&mut words, Kind::MakerBreaker, side, Goal::Win)?;
    Ok(Text::from_string(words))
}

/// What is said of an invalid claim.
fn faulty_title(alloc: Global, why: u8) -> Result<Text, Memory>
    ensures { IfOk result (λ text. text ≡ codes "Claim rejected: S" ++ decimal why) }
{
    Ok(Text::from_string(format!(in alloc; "Claim rejected: S{why}")?))
}

/// Returns the title of a claim of that side: what the side reaches, or, of an invalid claim, the
/// number of its fault.
///
/// # Errors
///
/// `Memory` if memory ran out.
pub fn span_title(alloc: Global, side: Side, fault: Option<u8>) -> Result<Text, Memory>
    ensures { IfOk result (λ text. text ≡ span_title side fault) }
{
    match fault {
        Some(why) => faulty_title(alloc, why),
        None => sound_title(alloc, side),
    }
}

/// How many vertices and edges there are.
fn size_line(alloc: Global, numbers: bool, graph: &Graph) -> Result<Text, Memory>
    ensures { IfOk result
        (λ text. text ≡ graph_line numbers graph.now.vertices (length graph.now.ends)) }
{
    graph_line(alloc, numbers, graph.vertices, graph.ends.as_slice().len())
}

/// Adds how many vertices and edges there are.
fn put_graph_line(
    alloc: Global,
    lines: &mut Vec<Text>,
    numbers: bool,
    graph: &Graph,
) -> Result<(), Memory>
    ensures { OnOk result
        (lines.new.items
        ≡ lines.old.items
        ++ graph_line numbers graph.now.vertices (length graph.now.ends) ∷ []) }
{
    lines.push(size_line(alloc, numbers, graph)?)?;
    Ok(())
}

/// Adds how the edges of the two sides look, if they are seen.
fn put_span_marks(
    alloc: Global,
    lines: &mut Vec<Text>,
    g: &SpanGame,
    p: &Position,
) -> Result<(), Memory>
    ensures { OnOk result
        (lines.new.items ≡ lines.old.items ++ marks_lines
        (codes "thick: Maker's edges") (codes "dotted: Breaker's edges") p.now
        (edge_count g.now.graph)) }
{
    put_marks(
        alloc,
        lines,
        "thick: Maker's edges",
        "dotted: Breaker's edges",
        p,
        g.graph.edge_count(),
    )
}

/// Adds what is said of a game and a position.
fn put_position(
    alloc: Global,
    lines: &mut Vec<Text>,
    look: Look,
    g: &SpanGame,
    p: &Position,
) -> Result<(), Memory>
    ensures { OnOk result
        (lines.new.items ≡ lines.old.items ++ span_position_lines look g.now p.now) }
{
    put_turn(alloc, lines, Kind::MakerBreaker, p)?;
    put_span_marks(alloc, lines, g, p)?;
    put_graph_line(alloc, lines, look.numbers, &g.graph)?;
    Ok(())
}

/// Adds that an edge is claimed first, if one of the game's is.
fn put_first_line(
    alloc: Global,
    lines: &mut Vec<Text>,
    n: u16,
    first: Option<u16>,
) -> Result<(), Memory>
    ensures { OnOk result (lines.new.items ≡ lines.old.items ++ first_lines n first) }
{
    let Some(v) = first else {
        return Ok(());
    };
    put_if(
        alloc,
        lines,
        v < n,
        "1 in a ring: the edge that Maker claims first;",
    )
}

/// Adds what trees are.
fn put_trees_lines(
    alloc: Global,
    lines: &mut Vec<Text>,
    n: u16,
    first: Option<u16>,
    a1: &PointSet,
    a2: &PointSet,
) -> Result<(), Memory>
    ensures { OnOk result
        (lines.new.items
        ≡ lines.old.items ++ (first_lines n first
        ++ sets_lines (seen_sets false n a1.now a2.now) (codes "each set joins all vertices"))) }
{
    put_first_line(alloc, lines, n, first)?;
    let seen = seen_sets(false, n, a1, a2);
    put_sets_lines(alloc, lines, seen, "each set joins all vertices")
}

/// Adds what a body names.
fn put_span_lines(
    alloc: Global,
    lines: &mut Vec<Text>,
    g: &SpanGame,
    body: &SpanBody,
) -> Result<(), Memory>
    ensures { OnOk result (lines.new.items ≡ lines.old.items ++ span_lines g.now body.now) }
{
    match body {
        SpanBody::Trees { first, a1, a2 } => {
            put_trees_lines(alloc, lines, g.graph.edge_count(), *first, a1, a2)
        }
        SpanBody::Parts(_) => {
            put_line(alloc, lines, "in rings: the numbers of the vertices' parts")
        }
    }
}

/// Adds everything that is said of a claim that is valid.
fn put_claim(
    alloc: Global,
    lines: &mut Vec<Text>,
    look: Look,
    g: &SpanGame,
    claim: &SpanClaim,
    p: &Position,
) -> Result<(), Memory>
    requires { p.now ≡ marks_at g.now claim.now.turn }
    ensures { OnOk result
        (lines.new.items ≡ lines.old.items ++ span_claim_lines look g.now claim.now) }
{
    let kind = Kind::MakerBreaker;
    lines.push(claim_line(alloc, kind, claim.turn, claim.side, Goal::Win)?)?;
    put_position(alloc, lines, look, g, p)?;
    put_span_lines(alloc, lines, g, &claim.body)
}

/// Adds as much of it as the legend says.
fn put_said(
    alloc: Global,
    lines: &mut Vec<Text>,
    look: Look,
    g: &SpanGame,
    claim: &SpanClaim,
    p: &Position,
) -> Result<(), Memory>
    requires { p.now ≡ marks_at g.now claim.now.turn }
    ensures { OnOk result
        (lines.new.items
        ≡ lines.old.items ++ span_said_by look.legend look g.now claim.now) }
{
    match look.legend {
        Legend::Absent => Ok(()),
        Legend::OfBody => put_span_lines(alloc, lines, g, &claim.body),
        Legend::Whole => put_claim(alloc, lines, look, g, claim, p),
    }
}

/// Returns what is said of a connectivity game at its marks, or without them on blank boards, if
/// the legend says everything.
///
/// # Errors
///
/// `Memory` if memory ran out.
pub fn span_game_legend(alloc: Global, look: Look, g: &SpanGame) -> Result<Texts, Memory>
    ensures { IfOk result (λ lines. lines ≡ span_game_by look.legend look g.now) }
{
    let p = seen_at(look.blank, marks_at(g, g.turn));
    let mut lines = Vec::new(alloc);
    if let Legend::Whole = look.legend {
        put_position(alloc, &mut lines, look, g, &p)?;
    }
    Ok(Texts::from_vec(lines))
}

/// Returns what is said of a claim, with what its body names, and whether it is invalid.
///
/// # Errors
///
/// `Memory` if memory ran out.
pub fn span_claim_legend(
    alloc: Global,
    look: Look,
    g: &SpanGame,
    claim: &SpanClaim,
    fault: Option<u8>,
) -> Result<Texts, Memory>
    ensures { IfOk result (λ lines. lines ≡ span_by look.legend look g.now claim.now fault) }
{
    let p = marks_at(g, claim.turn);
    let mut lines = Vec::new(alloc);
    put_said(alloc, &mut lines, look, g, claim, &p)?;
    if let Legend::Whole = look.legend {
        put_fault_lines(alloc, &mut lines, fault)?;
    }
    Ok(Texts::from_vec(lines))
}
