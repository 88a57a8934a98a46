//! Boards without cells: each point as an entry, in rows.
ghost use Rattle.std.specs.Prelude.{◌≡◌, ◌<◌, ◌++◌, OnOk, Some, string_bytes};
ghost use Rattle.pg_base.specs.declared.limits.TheConstants.{MAX_MEMBERS};
ghost use Rattle.pg_game.specs.Game.{point_count};
ghost use Rattle.pg_characters.specs.Entries.{edge_text, ends_text, entries_text, entry_text};
ghost use Rattle.pg_characters.specs.Entries.{in_row, pair_text, entry_in_row, point_text};

use crate::marks::put_marked;
use crate::names::{put_padded, put_padded_right};
use crate::shown::Shown;
use pg_base::MAX_MEMBERS;
use pg_game::{Field, Game};
use pg_graph::Graph;
use std::alloc::AllocError;

/// How many characters the entry of a point takes.
pub const POINT_WIDTH: u16 = 5;

/// How many characters the entry of an edge takes.
pub const EDGE_WIDTH: u16 = 16;

/// Adds the entry of a point: its mark, or its number if it is free.
fn put_point(out: &mut String, shown: &Shown, point: u16) -> Result<(), AllocError>
    requires { point < MAX_MEMBERS }
    ensures { OnOk result (string_bytes out.new
        ≡ string_bytes out.old ++ point_text shown.now point) }
{
    out.push_str(" ")?;
    if shown.position.is_free(point) {
        put_padded(out, point)?;
    } else {
        put_marked(out, shown, point, "")?;
    }
    out.push_str(" ")
}

/// Adds the two ends of an edge.
fn put_pair(out: &mut String, one: u16, other: u16) -> Result<(), AllocError>
    ensures { OnOk result (string_bytes out.new
        ≡ string_bytes out.old ++ pair_text (Some (one, other))) }
{
    put_padded(out, one)?;
    out.push_str("-")?;
    put_padded_right(out, other)
}

/// Adds the two ends of an edge, if the graph has it.
fn put_ends(out: &mut String, graph: &Graph, edge: u16) -> Result<(), AllocError>
    ensures { OnOk result (string_bytes out.new
        ≡ string_bytes out.old ++ ends_text graph.now.ends edge) }
{
    match graph.ends.as_slice().get(edge as usize) {
        Some(ends) => put_pair(out, ends.0, ends.1),
        None => Ok(()),
    }
}

/// Adds the entry of an edge: its number, its ends and its mark.
fn put_edge(out: &mut String, graph: &Graph, shown: &Shown, edge: u16) -> Result<(), AllocError>
    requires { edge < MAX_MEMBERS }
    ensures { OnOk result (string_bytes out.new
        ≡ string_bytes out.old ++ edge_text graph.now shown.now edge) }
{
    put_padded(out, edge)?;
    out.push_str(":")?;
    put_ends(out, graph, edge)?;
    put_marked(out, shown, edge, " . ")?;
    out.push_str("  ")
}

/// How many entries are in a row.
fn in_row(field: &Field, columns: u16) -> u16
    ensures many { result ≡ in_row field.now columns }
    ensures some { 0 < result }
{
    let width = match field {
        Field::Lines(_) => POINT_WIDTH,
        Field::Graph(_) => EDGE_WIDTH,
    };
    (columns / width).max(1)
}

/// Adds the entry of a point, and ends its row after the last entry of it.
#[tactic(auto, unfolding(crate::specs::Entries::entry_in_row))]
fn put_entry(
    out: &mut String,
    game: &Game,
    shown: &Shown,
    point: u16,
    in_row: u16,
) -> Result<(), AllocError>
    requires point { point < point_count game.now }
    requires some { 0 < in_row }
    ensures { OnOk result (string_bytes out.new ≡ string_bytes out.old
        ++ entry_in_row game.now shown.now in_row point) }
{
    let points = game.points();
    match &game.field {
        Field::Lines(_) => put_point(out, shown, point)?,
        Field::Graph(graph) => put_edge(out, graph, shown, point)?,
    }
    if (point + 1) % in_row == 0 || point + 1 == points {
        out.push_str("\n")?;
    }
    Ok(())
}

/// Adds the entries of all points in rows.
#[tactic(auto, unfolding(crate::specs::Entries::entries_text))]
pub fn put_entries(out: &mut String, game: &Game, shown: &Shown) -> Result<(), AllocError>
    ensures { OnOk result (string_bytes out.new
        ≡ string_bytes out.old ++ entries_text game.now shown.now) }
{
    let in_row = in_row(&game.field, shown.look.columns);
    for point in 0..game.points() {
        put_entry(out, game, shown, point, in_row)?;
    }
    Ok(())
}
