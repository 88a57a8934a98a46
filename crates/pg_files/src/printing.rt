//! The text of a game.
ghost use Rattle.std.specs.Prelude.{◌≡◌, ◌++◌, OnOk, IfOk, string_bytes};
ghost use Rattle.pg_files.specs.Prelude.{flat_map, spelled};
ghost use Rattle.pg_files.specs.Print.{number_words, numbered, worded, marked, size_words};
ghost use Rattle.pg_files.specs.Print.{bias_words, edge_words, field_words, last_lines, printed};
ghost use Rattle.pg_files.specs.declared.key.Key.TheVariants as keys;
ghost use Rattle.pg_game.specs.declared.field.Field.TheVariants as fields;
ghost use Rattle.pg_files.specs.Views.{entry};

use crate::key::Key;
use crate::sets::members;
use pg_base::{Grid, Line, Memory, PointSet, Side};
use pg_game::{Field, Game, LineField};
use pg_graph::Graph;
use std::alloc::{AllocError, Global};
use std::fmt::Write;

/// A line of a word and numbers.
pub fn put_numbers(out: &mut String, word: &str, numbers: &[u16]) -> Result<(), AllocError>
    ensures { OnOk result
        (string_bytes out.new
        ≡ string_bytes out.old ++ spelled (number_words word.now numbers.now)) }
{
    out.push_str(word)?;
    for n in numbers {
        write!(out, " {n}")?;
    }
    out.push_str("\n")?;
    Ok(())
}

/// A line of a key and marks, where there are any.
fn put_marks(out: &mut String, key: Key, marks: &[u16]) -> Result<(), AllocError>
    ensures { OnOk result
        (string_bytes out.new ≡ string_bytes out.old ++ flat_map spelled (marked key marks.now)) }
{
    if marks.is_empty() {
        return Ok(());
    }
    put_numbers(out, key.name(), marks)
}

/// A line of a key and a word.
fn put_word(out: &mut String, key: Key, word: &str) -> Result<(), AllocError>
    ensures { OnOk result
        (string_bytes out.new ≡ string_bytes out.old ++ spelled (worded key word.now)) }
{
    let name = key.name();
    write!(out, "{name} {word}\n")?;
    Ok(())
}

/// The grid where there is one, else the number of points.
fn put_size(out: &mut String, points: u16, grid: Option<Grid>) -> Result<(), AllocError>
    ensures { OnOk result
        (string_bytes out.new ≡ string_bytes out.old ++ spelled (size_words points grid)) }
{
    match grid {
        Some(grid) => put_numbers(out, Key::Grid.name(), &[grid.width, grid.height]),
        None => put_numbers(out, Key::Points.name(), &[points]),
    }
}

/// A line of the bias, where it is above 1.
fn put_bias(out: &mut String, bias: u8) -> Result<(), AllocError>
    ensures { OnOk result
        (string_bytes out.new ≡ string_bytes out.old ++ flat_map spelled (bias_words bias)) }
{
    if bias <= 1 {
        return Ok(());
    }
    put_numbers(out, Key::Bias.name(), &[u16::from(bias)])
}

/// The lines of a game.
fn put_lines(out: &mut String, lines: &[Line]) -> Result<(), AllocError>
    ensures { OnOk result
        (string_bytes out.new
        ≡ string_bytes out.old ++ flat_map (λ line. spelled (numbered keys.Line line)) lines.now) }
{
    for line in lines {
        put_numbers(out, Key::Line.name(), line.as_slice())?;
    }
    Ok(())
}

/// The edges of a game.
pub fn put_edges(out: &mut String, edges: &[(u16, u16)]) -> Result<(), AllocError>
    ensures { OnOk result
        (string_bytes out.new
        ≡ string_bytes out.old ++ flat_map (λ ends. spelled (edge_words ends)) edges.now) }
{
    for ends in edges {
        put_numbers(out, Key::Edge.name(), &[ends.0, ends.1])?;
    }
    Ok(())
}

/// Lines, what their points are, and the bias.
fn put_line_field(out: &mut String, bias: u8, field: &LineField) -> Result<(), AllocError>
    ensures { OnOk result
        (string_bytes out.new
        ≡ string_bytes out.old ++ flat_map spelled (field_words bias (fields.Lines field.now))) }
{
    put_size(out, field.points, field.grid)?;
    put_bias(out, bias)?;
    put_lines(out, field.lines.as_slice())?;
    Ok(())
}

/// A graph with its terminals.
fn put_graph(out: &mut String, graph: &Graph) -> Result<(), AllocError>
    ensures { OnOk result
        (string_bytes out.new
        ≡ string_bytes out.old ++ flat_map spelled (field_words 1 (fields.Graph graph.now))) }
{
    put_numbers(out, Key::Vertices.name(), &[graph.vertices])?;
    put_numbers(out, Key::Terminals.name(), &[graph.s, graph.t])?;
    put_edges(out, graph.ends.as_slice())?;
    Ok(())
}

/// What a game is played on, and the bias.
fn put_field(out: &mut String, bias: u8, field: &Field) -> Result<(), AllocError>
    ensures { OnOk result
        (string_bytes out.new
        ≡ string_bytes out.old ++ flat_map spelled (field_words bias field.now)) }
{
    match field {
        Field::Lines(field) => put_line_field(out, bias, field),
        Field::Graph(graph) => put_graph(out, graph),
    }
}

/// The marks of both sides, and the side to move.
pub fn put_last(
    alloc: Global,
    out: &mut String,
    x: &PointSet,
    y: &PointSet,
    turn: Side,
) -> Result<(), AllocError>
    ensures { OnOk result
        (string_bytes out.new
        ≡ string_bytes out.old ++ flat_map spelled (last_lines x.now y.now turn)) }
{
    let x = members(alloc, x)?;
    let y = members(alloc, y)?;
    put_marks(out, Key::X, &x)?;
    put_marks(out, Key::Y, &y)?;
    put_word(out, Key::Turn, turn.word())
}

/// The text of a game: reading it gives the game back.
///
/// The marks of each side stand in ascending order, and a side without marks has no line. A bias of
/// 1 isn't said.
#[tactic(auto, unfolding(crate::specs::Print::printed))]
pub fn print_game(alloc: Global, g: &Game) -> Result<Vec<u8>, Memory>
    ensures { IfOk result (λ text. text.items ≡ printed (entry g.now)) }
{
    let mut out = String::new(alloc);
    out.push_str("posgame 1\n")?;
    put_word(&mut out, Key::Kind, g.kind.word())?;
    put_field(&mut out, g.bias, &g.field)?;
    put_last(alloc, &mut out, &g.x, &g.y, g.turn)?;
    Ok(out.into_bytes())
}
