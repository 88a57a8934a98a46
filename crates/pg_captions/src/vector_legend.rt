//! Titles and legends of games on vectors, and of nodes.
ghost use Rattle.std.specs.Prelude.{◌≡◌, ◌≤◌, ◌++◌, ◌∷◌, [], IfOk, OnOk, codes, length};
ghost use Rattle.pg_captions.specs.Prelude.{at_turn, decimal};
ghost use Rattle.pg_captions.specs.Marks.{marks_lines, seen_sets};
ghost use Rattle.pg_captions.specs.VectorLegends.{vector_by, vector_game_by, vector_lines};
ghost use Rattle.pg_captions.specs.VectorLegends.{vector_node_lines, vector_position_lines};
ghost use Rattle.pg_captions.specs.VectorLegends.{vector_said_by, vector_sets_lines, vector_title};
ghost use Rattle.pg_captions.specs.VectorLegends.{vectors_line};
ghost use Rattle.pg_gf2.specs.declared.game.TheConstants.{MAX_VECTORS};

use crate::legend::{claim_line, put_fault_lines, put_turn};
use crate::look::{Legend, Look, seen_at};
use crate::marks::{Seen, put_if, put_marks, put_seen, seen_sets};
use crate::text::{Text, Texts};
use crate::words::{node_title, put_line};
use pg_base::{Kind, Memory, Side};
use pg_cert::{Body, Claim};
use pg_game::Position;
use pg_gf2::VecGame;
use std::alloc::Global;

/// Returns the game's marks with a side to move.
pub fn vector_marks_at(g: &VecGame, turn: Side) -> Position
    ensures { result ≡ at_turn g.now turn }
{
    Position {
        x: g.x,
        y: g.y,
        turn,
        left: 1,
    }
}

/// Returns how many vectors the game has.
pub fn vector_count(g: &VecGame) -> u16
    ensures count { result ≡ length g.now.vectors }
    ensures few { result ≤ MAX_VECTORS }
{
    g.vectors.as_slice().len() as u16
}

/// What is said of an invalid node.
fn faulty_title(alloc: Global, node: u32, why: u8) -> Result<Text, Memory>
    ensures { IfOk result (λ text. text
        ≡ codes "Position " ++ (decimal node ++ (codes ": rejected V" ++ decimal why))) }
{
    Ok(Text::from_string(format!(in alloc; "Position {node}: rejected V{why}")?))
}

/// Returns the title of the node of that number: what the claim's side reaches there; of an invalid
/// node the number of its fault.
///
/// # Errors
///
/// `Memory` if memory ran out.
pub fn vector_title(
    alloc: Global,
    claim: &Claim,
    node: u32,
    fault: Option<u8>,
) -> Result<Text, Memory>
    ensures { IfOk result (λ text. text ≡ vector_title claim.now node fault) }
{
    match fault {
        Some(why) => faulty_title(alloc, node, why),
        None => node_title(alloc, Kind::Switching, claim, node, None),
    }
}

/// How many vectors there are, and how many entries each has.
fn vectors_line(alloc: Global, vectors: u16, entries: u8) -> Result<Text, Memory>
    ensures { IfOk result (λ text. text ≡ vectors_line vectors entries) }
{
    let words = format!(in alloc; "vectors: {vectors}, entries of each: {entries}")?;
    Ok(Text::from_string(words))
}

/// Adds how many vectors there are, and how many entries each has.
fn put_count(alloc: Global, lines: &mut Vec<Text>, g: &VecGame) -> Result<(), Memory>
    ensures { OnOk result
        (lines.new.items
        ≡ lines.old.items ++ vectors_line (length g.now.vectors) g.now.rows ∷ []) }
{
    lines.push(vectors_line(alloc, vector_count(g), g.rows)?)?;
    Ok(())
}

/// Adds how the rows of the two sides look, if they are seen.
fn put_row_marks(
    alloc: Global,
    lines: &mut Vec<Text>,
    g: &VecGame,
    p: &Position,
) -> Result<(), Memory>
    ensures { OnOk result
        (lines.new.items ≡ lines.old.items ++ marks_lines
        (codes "X, dark: Short") (codes "Y, light: Cut") p.now (length g.now.vectors)) }
{
    let n = vector_count(g);
    put_marks(alloc, lines, "X, dark: Short", "Y, light: Cut", p, n)
}

/// Adds what is said of a game and a position.
fn put_position(
    alloc: Global,
    lines: &mut Vec<Text>,
    g: &VecGame,
    p: &Position,
) -> Result<(), Memory>
    ensures { OnOk result
        (lines.new.items ≡ lines.old.items ++ vector_position_lines g.now p.now) }
{
    put_turn(alloc, lines, Kind::Switching, p)?;
    put_row_marks(alloc, lines, g, p)?;
    put_count(alloc, lines, g)?;
    put_line(alloc, lines, "last row: the target, a sum for Short")?;
    Ok(())
}

/// Adds how two sets of vectors look, and what they do.
fn put_sets(alloc: Global, lines: &mut Vec<Text>, seen: Seen, does: &str) -> Result<(), Memory>
    ensures { OnOk result
        (lines.new.items ≡ lines.old.items ++ vector_sets_lines seen does.now) }
{
    put_seen(
        alloc,
        lines,
        seen,
        "whole line: the first set of vectors;",
        "dashed line: the second set of vectors;",
    )?;
    put_line(alloc, lines, does)?;
    put_if(
        alloc,
        lines,
        seen.further,
        "the target is in the first set too",
    )?;
    Ok(())
}

/// Adds what a body names.
fn put_body(alloc: Global, lines: &mut Vec<Text>, g: &VecGame, body: &Body) -> Result<(), Memory>
    ensures { OnOk result (lines.new.items ≡ lines.old.items ++ vector_lines g.now body.now) }
{
    let n = vector_count(g);
    match body {
        Body::Trees {
            with_e,
            first,
            second,
        } => {
            let seen = seen_sets(*with_e, n, first.as_set(), second.as_set());
            put_sets(
                alloc,
                lines,
                seen,
                "with Short's, each set has the target as a sum",
            )
        }
        Body::Cuts {
            with_e,
            first,
            second,
        } => {
            let seen = seen_sets(*with_e, n, first.as_set(), second.as_set());
            put_sets(
                alloc,
                lines,
                seen,
                "without either set the target is no sum",
            )
        }
        _ => Ok(()),
    }
}

/// Adds everything that is said of a node that is valid.
fn put_node(
    alloc: Global,
    lines: &mut Vec<Text>,
    g: &VecGame,
    claim: &Claim,
    p: &Position,
    body: &Body,
) -> Result<(), Memory>
    ensures { OnOk result
        (lines.new.items ≡ lines.old.items ++ vector_node_lines g.now claim.now p.now body.now) }
{
    let kind = Kind::Switching;
    lines.push(claim_line(alloc, kind, claim.turn, claim.side, claim.goal)?)?;
    put_position(alloc, lines, g, p)?;
    put_body(alloc, lines, g, body)
}

/// Adds as much of it as the legend says.
fn put_said(
    alloc: Global,
    lines: &mut Vec<Text>,
    legend: Legend,
    g: &VecGame,
    claim: &Claim,
    p: &Position,
    body: &Body,
) -> Result<(), Memory>
    ensures { OnOk result
        (lines.new.items
        ≡ lines.old.items ++ vector_said_by legend g.now claim.now p.now body.now) }
{
    match legend {
        Legend::Absent => Ok(()),
        Legend::OfBody => put_body(alloc, lines, g, body),
        Legend::Whole => put_node(alloc, lines, g, claim, p, body),
    }
}

/// Returns what is said of a game on vectors at its marks, or without them on blank boards, if the
/// legend says everything.
///
/// # Errors
///
/// `Memory` if memory ran out.
pub fn vector_game_legend(alloc: Global, look: Look, g: &VecGame) -> Result<Texts, Memory>
    ensures { IfOk result (λ lines. lines ≡ vector_game_by look.legend look g.now) }
{
    let p = seen_at(look.blank, vector_marks_at(g, g.turn));
    let mut lines = Vec::new(alloc);
    if let Legend::Whole = look.legend {
        put_position(alloc, &mut lines, g, &p)?;
    }
    Ok(Texts::from_vec(lines))
}

/// Returns what is said of a node of a claim, with what its body names, and whether it is invalid.
///
/// # Errors
///
/// `Memory` if memory ran out.
pub fn vector_node_legend(
    alloc: Global,
    legend: Legend,
    g: &VecGame,
    claim: &Claim,
    p: &Position,
    body: &Body,
    fault: Option<u8>,
) -> Result<Texts, Memory>
    ensures { IfOk result
        (λ lines. lines ≡ vector_by legend g.now claim.now p.now body.now fault) }
{
    let mut lines = Vec::new(alloc);
    put_said(alloc, &mut lines, legend, g, claim, p, body)?;
    if let Legend::Whole = legend {
        put_fault_lines(alloc, &mut lines, fault)?;
    }
    Ok(Texts::from_vec(lines))
}
