//! What the bodies of nodes name, in words.
ghost use Rattle.std.specs.Prelude.{◌≡◌, ◌++◌, ◌∷◌, ◌&&◌, [], IfOk, OnOk};
ghost use Rattle.pg_captions.specs.Legends.{body_lines, heavier_line, lightest_line, pairs_lines};
ghost use Rattle.pg_captions.specs.Legends.{ring_lines, sets_lines, threat_lines};
ghost use Rattle.pg_captions.specs.Marks.{seen_sets};
ghost use Rattle.pg_captions.specs.Prelude.{is_graph, point_count};
ghost use Rattle.pg_captions.specs.Legends.{weaker_lines, weights_lines};

use crate::marks::{Seen, put_if, put_seen, seen_sets};
use crate::names::side_name;
use crate::text::Text;
use crate::weights::{base_of, most_free};
use crate::words::put_line;
use pg_base::{Kind, Memory, PointSet, Side};
use pg_cert::Body;
use pg_game::{Field, Game, Position};
use std::alloc::Global;

/// Adds that a side claims a ringed point.
fn put_ring(alloc: Global, lines: &mut Vec<Text>, kind: Kind, side: Side) -> Result<(), Memory>
    ensures { OnOk result (lines.new.items ≡ lines.old.items ++ ring_lines kind side) }
{
    let name = side_name(kind, side);
    let claims = format!(in alloc; "{name} claims a ringed point;")?;
    lines.push(Text::from_string(claims))?;
    put_line(alloc, lines, "in the ring: the next position")
}

/// Adds by what pairs a side answers.
fn put_pairs_lines(
    alloc: Global,
    lines: &mut Vec<Text>,
    kind: Kind,
    side: Side,
) -> Result<(), Memory>
    ensures { OnOk result (lines.new.items ≡ lines.old.items ++ pairs_lines kind side) }
{
    let name = side_name(kind, side);
    let rival = side_name(kind, side.other());
    let pairs = format!(in alloc; "each stroke is a pair: when {rival}")?;
    lines.push(Text::from_string(pairs))?;
    let answers = format!(in alloc; "claims one end, {name} claims the other")?;
    lines.push(Text::from_string(answers))?;
    Ok(())
}

/// The weight of the lightest line.
fn lightest_line(alloc: Global, free: usize) -> Result<Text, Memory>
    ensures { IfOk result (λ text. text ≡ lightest_line free) }
{
    let words = format!(in alloc; "a line with {free} free points weighs 1,")?;
    Ok(Text::from_string(words))
}

/// Adds the weight of the lightest line.
fn put_lightest(alloc: Global, lines: &mut Vec<Text>, free: usize) -> Result<(), Memory>
    ensures { OnOk result (lines.new.items ≡ lines.old.items ++ lightest_line free ∷ []) }
{
    lines.push(lightest_line(alloc, free)?)?;
    Ok(())
}

/// Adds the weights of other lines.
fn put_heavier(alloc: Global, lines: &mut Vec<Text>, base: u8) -> Result<(), Memory>
    ensures { OnOk result (lines.new.items ≡ lines.old.items ++ heavier_line base ∷ []) }
{
    let words = format!(in alloc; "and {base} times as much with each less")?;
    lines.push(Text::from_string(words))?;
    Ok(())
}

/// Adds what the weights of points are sums of.
fn put_weights_lines(
    alloc: Global,
    lines: &mut Vec<Text>,
    base: u8,
    free: usize,
) -> Result<(), Memory>
    ensures { OnOk result (lines.new.items ≡ lines.old.items ++ weights_lines base free) }
{
    put_line(alloc, lines, "bold: the weight of a point, which is")?;
    put_line(alloc, lines, "the sum of the weights of its lines;")?;
    put_lightest(alloc, lines, free)?;
    put_heavier(alloc, lines, base)?;
    Ok(())
}

/// Adds how two sets of edges look, and what each of them does.
pub(crate) fn put_sets_lines(
    alloc: Global,
    lines: &mut Vec<Text>,
    seen: Seen,
    does: &str,
) -> Result<(), Memory>
    ensures { OnOk result (lines.new.items ≡ lines.old.items ++ sets_lines seen does.now) }
{
    put_seen(
        alloc,
        lines,
        seen,
        "whole: the first set of edges;",
        "dashed: the second set of edges;",
    )?;
    put_line(alloc, lines, does)?;
    put_if(
        alloc,
        lines,
        seen.further,
        "e: an extra edge, in the first set",
    )?;
    Ok(())
}

/// Whether the game is played on a graph.
fn is_on_graph(g: &Game) -> bool
    ensures { result ≡ is_graph g.now.field }
{
    match &g.field {
        Field::Lines(_) => false,
        Field::Graph(_) => true,
    }
}

/// Adds how two sets of edges of a game look, the further edge among them if there is one.
fn put_game_sets(
    alloc: Global,
    lines: &mut Vec<Text>,
    g: &Game,
    with_e: bool,
    first: &PointSet,
    second: &PointSet,
    does: &str,
) -> Result<(), Memory>
    ensures { OnOk result
        (lines.new.items ≡ lines.old.items ++ sets_lines
        (seen_sets (with_e && is_graph g.now.field) (point_count g.now) first.now second.now)
        does.now) }
{
    let seen = seen_sets(with_e && is_on_graph(g), g.points(), first, second);
    put_sets_lines(alloc, lines, seen, does)
}

/// Adds how attacks and replies look.
fn put_threat_lines(alloc: Global, lines: &mut Vec<Text>) -> Result<(), Memory>
    ensures { OnOk result (lines.new.items ≡ lines.old.items ++ threat_lines) }
{
    put_line(alloc, lines, "numbers in rings: the order of moves;")?;
    put_line(alloc, lines, "whole: attacks; dashed: forced replies")?;
    Ok(())
}

/// Adds that a position is no worse for a side than another node's.
fn put_weaker_line(
    alloc: Global,
    lines: &mut Vec<Text>,
    kind: Kind,
    side: Side,
    child: u32,
) -> Result<(), Memory>
    ensures { OnOk result (lines.new.items ≡ lines.old.items ++ weaker_lines kind side child) }
{
    let name = side_name(kind, side);
    let words = format!(in alloc; "no worse for {name} than position {child}")?;
    lines.push(Text::from_string(words))?;
    Ok(())
}

/// Adds what a body names.
pub(crate) fn put_body_lines(
    alloc: Global,
    lines: &mut Vec<Text>,
    g: &Game,
    p: &Position,
    side: Side,
    body: &Body,
) -> Result<(), Memory>
    ensures { OnOk result
        (lines.new.items ≡ lines.old.items ++ body_lines g.now p.now side body.now) }
{
    match body {
        Body::Over => put_line(alloc, lines, "the game is over"),
        Body::Move { .. } => put_ring(alloc, lines, g.kind, side),
        Body::All(_) => put_ring(alloc, lines, g.kind, side.other()),
        Body::Pairs(_) => put_pairs_lines(alloc, lines, g.kind, side),
        Body::Potential => put_weights_lines(alloc, lines, base_of(g), most_free(g, p, side)),
        Body::Trees {
            with_e,
            first,
            second,
        } => put_game_sets(
            alloc,
            lines,
            g,
            *with_e,
            first.as_set(),
            second.as_set(),
            "each set joins the terminals",
        ),
        Body::Cuts {
            with_e,
            first,
            second,
        } => put_game_sets(
            alloc,
            lines,
            g,
            *with_e,
            first.as_set(),
            second.as_set(),
            "each set separates the terminals",
        ),
        Body::Threat(_) => put_threat_lines(alloc, lines),
        Body::Weaker { child } => put_weaker_line(alloc, lines, g.kind, side, *child),
    }
}
