//! Legends of games and of nodes.
ghost use Rattle.std.specs.Prelude.{◌≡◌, ◌++◌, ◌∷◌, [], IfOk, OnOk, nat_lt, string_bytes};
ghost use Rattle.pg_captions.specs.Legends.{bias_line, board_lines, claim_line, fault_lines};
ghost use Rattle.pg_captions.specs.Legends.{field_line};
ghost use Rattle.pg_captions.specs.Legends.{game_legend, graph_line, graph_words, lines_line};
ghost use Rattle.pg_captions.specs.Legends.{mark_words, node_legend, node_lines, position_lines};
ghost use Rattle.pg_captions.specs.Legends.{said_by, size_line, turn_line};
ghost use Rattle.pg_captions.specs.Marks.{marks_lines, said_if};
ghost use Rattle.pg_captions.specs.Prelude.{point_count};
ghost use Rattle.pg_base.specs.declared.side.Side.TheVariants.{X, Y};

use crate::body_words::put_body_lines;
use crate::lines::are_drawn;
use crate::look::{Legend, Look};
use crate::marks::put_marks;
use crate::names::side_name;
use crate::text::{Text, Texts};
use crate::words::{put_line, put_result, text_of};
use pg_base::{Goal, Kind, Line, Memory, Side};
use pg_cert::{Body, Claim};
use pg_game::{Field, Game, LineField, Position};
use std::alloc::{AllocError, Global};
use std::fmt::Write;

/// Who is to move, with how many points it still claims if these are several.
pub(crate) fn turn_line(alloc: Global, kind: Kind, p: &Position) -> Result<Text, Memory>
    ensures { IfOk result (λ text. text ≡ turn_line kind p.now) }
{
    let left = p.left;
    let mut words = String::new(alloc);
    words.push_str(side_name(kind, p.turn))?;
    words.push_str(" to move")?;
    if left > 1 {
        write!(words, ", {left} points")?;
    }
    Ok(Text::from_string(words))
}

/// Adds who is to move.
pub(crate) fn put_turn(
    alloc: Global,
    lines: &mut Vec<Text>,
    kind: Kind,
    p: &Position,
) -> Result<(), Memory>
    ensures { OnOk result (lines.new.items ≡ lines.old.items ++ turn_line kind p.now ∷ []) }
{
    lines.push(turn_line(alloc, kind, p)?)?;
    Ok(())
}

/// How many points Y claims in a turn.
fn bias_line(alloc: Global, kind: Kind, bias: u8) -> Result<Text, Memory>
    ensures { IfOk result (λ text. text ≡ bias_line kind bias) }
{
    let name = side_name(kind, Side::Y);
    Ok(Text::from_string(format!(in alloc; "{name} claims {bias} points a turn")?))
}

/// How the points of a side look.
fn mark_words(kind: Kind, side: Side) -> &'static str
    ensures { result.now ≡ mark_words kind side }
{
    match (kind, side) {
        (Kind::MakerBreaker, Side::X) => "X, dark: Maker",
        (Kind::MakerBreaker, Side::Y) => "Y, light: Breaker",
        (Kind::MakerMaker, Side::X) => "dark: X",
        (Kind::MakerMaker, Side::Y) => "light: Y",
        (Kind::AvoiderEnforcer, Side::X) => "X, dark: Avoider",
        (Kind::AvoiderEnforcer, Side::Y) => "Y, light: Enforcer",
        (Kind::Switching, Side::X) => "thick: Short's edges",
        (Kind::Switching, Side::Y) => "dotted: Cut's edges",
    }
}

/// Puts how many vertices and edges there are.
fn put_graph(out: &mut String, vertices: u16, edges: usize) -> Result<(), AllocError>
    ensures { OnOk result
        (string_bytes out.new ≡ string_bytes out.old ++ graph_words vertices edges) }
{
    write!(out, "vertices: {vertices}, edges: {edges}")?;
    Ok(())
}

/// How many vertices and edges there are, and whether they have numbers.
pub(crate) fn graph_line(
    alloc: Global,
    numbers: bool,
    vertices: u16,
    edges: usize,
) -> Result<Text, Memory>
    ensures { IfOk result (λ text. text ≡ graph_line numbers vertices edges) }
{
    let mut words = String::new(alloc);
    put_graph(&mut words, vertices, edges)?;
    if numbers {
        words.push_str(", with numbers")?;
    }
    Ok(Text::from_string(words))
}

/// How many points there are.
fn points_line(alloc: Global, numbers: bool, field: &LineField) -> Result<Text, Memory>
    ensures { IfOk result (λ text. text ≡ size_line numbers (Field.Lines field.now)) }
{
    let points = field.points;
    let mut words = format!(in alloc; "points: {points}")?;
    if numbers {
        words.push_str(", each with its number")?;
    }
    Ok(Text::from_string(words))
}

/// How many points there are, or vertices and edges.
fn size_line(alloc: Global, numbers: bool, field: &Field) -> Result<Text, Memory>
    ensures { IfOk result (λ text. text ≡ size_line numbers field.now) }
{
    match field {
        Field::Lines(on) => points_line(alloc, numbers, on),
        Field::Graph(graph) => {
            graph_line(alloc, numbers, graph.vertices, graph.ends.as_slice().len())
        }
    }
}

/// How many lines there are, and how they look.
fn lines_line(alloc: Global, seen: bool, lines: &[Line]) -> Result<Text, Memory>
    ensures { IfOk result (λ text. text ≡ lines_line seen lines.now) }
{
    let count = lines.len();
    let mut words = String::new(alloc);
    if are_drawn(seen, lines) {
        words.push_str("lines in grey, each from its dot: ")?;
    } else {
        words.push_str("lines, not drawn: ")?;
    }
    write!(words, "{count}")?;
    Ok(Text::from_string(words))
}

/// How the lines of a game look, or its terminals.
fn field_line(alloc: Global, seen: bool, field: &Field) -> Result<Text, Memory>
    ensures { IfOk result (λ text. text ≡ field_line seen field.now) }
{
    match field {
        Field::Lines(on) => lines_line(alloc, seen, on.lines.as_slice()),
        Field::Graph(_) => text_of(alloc, "grey: the two terminals"),
    }
}

/// Adds how the lines of a game look, or its terminals.
fn put_field_line(
    alloc: Global,
    lines: &mut Vec<Text>,
    seen: bool,
    field: &Field,
) -> Result<(), Memory>
    ensures { OnOk result (lines.new.items ≡ lines.old.items ++ field_line seen field.now ∷ []) }
{
    lines.push(field_line(alloc, seen, field)?)?;
    Ok(())
}

/// Adds how many points Y claims in a turn, if these are several.
fn put_bias(alloc: Global, lines: &mut Vec<Text>, g: &Game) -> Result<(), Memory>
    ensures { OnOk result
        (lines.new.items
        ≡ lines.old.items ++ said_if (nat_lt 1 g.now.bias) (bias_line g.now.kind g.now.bias)) }
{
    if g.bias > 1 {
        lines.push(bias_line(alloc, g.kind, g.bias)?)?;
    }
    Ok(())
}

/// Adds how the points of the two sides look, if they are seen.
fn put_game_marks(
    alloc: Global,
    lines: &mut Vec<Text>,
    g: &Game,
    p: &Position,
) -> Result<(), Memory>
    ensures { OnOk result
        (lines.new.items ≡ lines.old.items ++ marks_lines
        (mark_words g.now.kind X) (mark_words g.now.kind Y) p.now (point_count g.now)) }
{
    let x = mark_words(g.kind, Side::X);
    let y = mark_words(g.kind, Side::Y);
    put_marks(alloc, lines, x, y, p, g.points())
}

/// Adds what is said of a game, with the marks that are seen at a position.
pub(crate) fn put_board(
    alloc: Global,
    lines: &mut Vec<Text>,
    look: Look,
    g: &Game,
    p: &Position,
) -> Result<(), Memory>
    ensures { OnOk result (lines.new.items ≡ lines.old.items ++ board_lines look g.now p.now) }
{
    put_bias(alloc, lines, g)?;
    put_game_marks(alloc, lines, g, p)?;
    lines.push(size_line(alloc, look.numbers, &g.field)?)?;
    put_field_line(alloc, lines, look.lines, &g.field)
}

/// Adds what is said of a game and a position.
fn put_position(
    alloc: Global,
    lines: &mut Vec<Text>,
    look: Look,
    g: &Game,
    p: &Position,
) -> Result<(), Memory>
    ensures { OnOk result
        (lines.new.items ≡ lines.old.items ++ position_lines look g.now p.now) }
{
    lines.push(turn_line(alloc, g.kind, p)?)?;
    put_board(alloc, lines, look, g, p)
}

/// Returns what is said of a game and a position, if the legend says everything.
///
/// # Errors
///
/// `Memory` if memory ran out.
pub fn game_legend(alloc: Global, look: Look, g: &Game, p: &Position) -> Result<Texts, Memory>
    ensures { IfOk result (λ lines. lines ≡ game_legend look g.now p.now) }
{
    let mut lines = Vec::new(alloc);
    if let Legend::Whole = look.legend {
        put_position(alloc, &mut lines, look, g, p)?;
    }
    Ok(Texts::from_vec(lines))
}

/// What a claim says.
pub(crate) fn claim_line(
    alloc: Global,
    kind: Kind,
    turn: Side,
    side: Side,
    goal: Goal,
) -> Result<Text, Memory>
    ensures { IfOk result (λ text. text ≡ claim_line kind turn side goal) }
{
    let first = side_name(kind, turn);
    let mut words = String::new(alloc);
    put_result(&mut words, kind, side, goal)?;
    write!(words, " if {first} moves first")?;
    Ok(Text::from_string(words))
}

/// Adds that a node is invalid, if it is.
pub(crate) fn put_fault_lines(
    alloc: Global,
    lines: &mut Vec<Text>,
    fault: Option<u8>,
) -> Result<(), Memory>
    ensures { OnOk result (lines.new.items ≡ lines.old.items ++ fault_lines fault) }
{
    match fault {
        Some(_) => put_line(alloc, lines, "red cross: not proved"),
        None => Ok(()),
    }
}

/// Adds everything that is said of a node that is valid.
fn put_node(
    alloc: Global,
    lines: &mut Vec<Text>,
    look: Look,
    g: &Game,
    claim: &Claim,
    p: &Position,
    body: &Body,
) -> Result<(), Memory>
    ensures { OnOk result
        (lines.new.items ≡ lines.old.items ++ node_lines look g.now claim.now p.now body.now) }
{
    lines.push(claim_line(alloc, g.kind, claim.turn, claim.side, claim.goal)?)?;
    put_position(alloc, lines, look, g, p)?;
    put_body_lines(alloc, lines, g, p, claim.side, body)
}

/// Adds as much of it as the legend says.
fn put_said(
    alloc: Global,
    lines: &mut Vec<Text>,
    look: Look,
    g: &Game,
    claim: &Claim,
    p: &Position,
    body: &Body,
) -> Result<(), Memory>
    ensures { OnOk result
        (lines.new.items
        ≡ lines.old.items ++ said_by look.legend look g.now claim.now p.now body.now) }
{
    match look.legend {
        Legend::Absent => Ok(()),
        Legend::OfBody => put_body_lines(alloc, lines, g, p, claim.side, body),
        Legend::Whole => put_node(alloc, lines, look, g, claim, p, body),
    }
}

/// Returns what is said of a node of a claim, with what its body names, and whether it is invalid.
///
/// # Errors
///
/// `Memory` if memory ran out.
pub fn node_legend(
    alloc: Global,
    look: Look,
    g: &Game,
    claim: &Claim,
    p: &Position,
    body: &Body,
    fault: Option<u8>,
) -> Result<Texts, Memory>
    ensures { IfOk result
        (λ lines. lines ≡ node_legend look g.now claim.now p.now body.now fault) }
{
    let mut lines = Vec::new(alloc);
    put_said(alloc, &mut lines, look, g, claim, p, body)?;
    if let Legend::Whole = look.legend {
        put_fault_lines(alloc, &mut lines, fault)?;
    }
    Ok(Texts::from_vec(lines))
}
