//! Graphs: what joiners answer, and where edges end.
ghost use Rattle.std.specs.Prelude.{◌≡◌, ◌<◌, suc};
ghost use Rattle.pg_base.specs.Points.{AreBelow};
ghost use Rattle.pg_graph.specs.Graph.{IsGraph, edge_count};
ghost use Rattle.pg_graph.specs.Joiner.{IsMadeFor};

use crate::telling::{is_found, is_said};
use pg_base::PointSet;
use pg_game::Field;
use pg_graph::{Graph, Joiner};
use pg_plain::{game, numbers, set, word};
use std::alloc::Global;

/// The piece of a question that has this number, from 0, and no text where it has fewer.
fn piece(question: &str, number: usize) -> &str {
    question.split('/').nth(number).unwrap_or("")
}

/// Whether the joiner answers the question of which edges or vertices are joined as is due.
fn says(
    joiner: &mut Joiner,
    graph: &Graph,
    call: &str,
    set: &PointSet,
    others: &PointSet,
) -> Option<bool>
    requires graph { IsGraph graph.now }
    requires made { IsMadeFor joiner.old graph.now }
    requires set { AreBelow set.now (suc (edge_count graph.now)) }
    requires others { AreBelow others.now (suc (edge_count graph.now)) }
    ensures { joiner.new ≡ joiner.old }
{
    match call {
        "joins" => Some(joiner.joins_all(graph, set, others)),
        "bridges" => Some(joiner.bridges_all(graph, set, others)),
        _ => None,
    }
}

/// Whether the joiner answers the question as it tells.
fn is_answered(
    joiner: &mut Joiner,
    graph: &Graph,
    asked: &str,
    set: &PointSet,
    others: &PointSet,
    ends: (u16, u16),
) -> bool
    requires graph { IsGraph graph.now }
    requires made { IsMadeFor joiner.old graph.now }
    requires set { AreBelow set.now (suc (edge_count graph.now)) }
    requires others { AreBelow others.now (suc (edge_count graph.now)) }
    requires u { ends.0 < graph.now.vertices }
    requires v { ends.1 < graph.now.vertices }
    ensures { joiner.new ≡ joiner.old }
{
    let (u, v) = ends;
    let due = word(asked, 3);
    match word(asked, 0) {
        "joined" => is_said(joiner.joined(graph, set, u, v), due),
        "crossing" => is_found(joiner.crossing(graph, set, u, others), due),
        "parting" => is_found(joiner.parting(graph, set, u, v, others), due),
        call => match says(joiner, graph, call, set, others) {
            Some(answer) => is_said(answer, due),
            None => false,
        },
    }
}

/// Whether the question is one on the graph, and the joiner answers it as it tells.
fn is_question_so(alloc: Global, joiner: &mut Joiner, graph: &Graph, question: &str) -> Option<bool>
    requires graph { IsGraph graph.now }
    requires made { IsMadeFor joiner.old graph.now }
    ensures { joiner.new ≡ joiner.old }
{
    let asked = piece(question, 0);
    let u = word(asked, 1).parse::<u16>().ok()?;
    let v = word(asked, 2).parse::<u16>().ok()?;
    let first = set(alloc, piece(question, 1))?;
    let others = set(alloc, piece(question, 2))?;
    let limit = graph.edge_count() + 1;
    let are_edges = first.is_below(limit) && others.is_below(limit);
    if !are_edges || u >= graph.vertices || v >= graph.vertices {
        return None;
    }
    Some(is_answered(joiner, graph, asked, &first, &others, (u, v)))
}

/// Whether one joiner answers all questions of the row as they tell.
fn are_so(alloc: Global, row: &str) -> Option<bool> {
    let g = game(alloc, row)?;
    let Field::Graph(graph) = &g.field else {
        return None;
    };
    let mut joiner = Joiner::new(alloc, graph).ok()?;
    for question in row.split(':').skip(4) {
        if !is_question_so(alloc, &mut joiner, graph, question)? {
            return Some(false);
        }
    }
    Some(true)
}

/// Whether the edge has the ends that a text tells after its number.
fn has_ends(alloc: Global, graph: &Graph, text: &str) -> Option<bool>
    requires { IsGraph graph.now }
{
    let told = numbers(alloc, text)?;
    let [k, u, v] = told.as_slice() else {
        return None;
    };
    if *k > graph.edge_count() {
        return None;
    }
    Some(graph.ends_of(*k) == (*u, *v))
}

/// Whether the graph of the row has as many edges as it tells, and with the ends that it tells.
fn have_ends(alloc: Global, row: &str) -> Option<bool> {
    let g = game(alloc, row)?;
    let Field::Graph(graph) = &g.field else {
        return None;
    };
    let mut told = row.split(':').skip(4);
    let count = told.next()?.parse::<u16>().ok()?;
    if graph.edge_count() != count || graph.ends.as_slice().len() != usize::from(count) {
        return Some(false);
    }
    for text in told {
        if !has_ends(alloc, graph, text)? {
            return Some(false);
        }
    }
    Some(true)
}

/// Whether the row is as it tells, of the question that the word names; None where it names none,
/// the row can't be read, or no memory is found.
pub(crate) fn is_so(alloc: Global, question: &str, row: &str) -> Option<bool> {
    match question {
        // what joins, crosses, parts and bridges.
        "joiner" => are_so(alloc, row),
        // the ends of edges.
        "ends" => have_ends(alloc, row),
        _ => None,
    }
}
