//! The edge that a player by parts claims.
ghost use Rattle.std.specs.Prelude.{◌≡◌, ◌≤◌, length, slice_index};
ghost use Rattle.pg_span.specs.Prelude.{IsGraph, edge_count, first_end_of, second_end_of, crosses};
ghost use Rattle.pg_span.specs.Answers.{parts_edge};

use pg_game::Position;
use pg_graph::Graph;
use pg_switch::lowest_free;

/// Whether the ends of the edge have different numbers.
fn crosses(graph: &Graph, numbers: &[u16], v: u16) -> bool
    requires graph { IsGraph graph.now }
    requires numbers { length numbers.now ≡ graph.now.vertices }
    requires edge { v ≤ edge_count graph.now }
    ensures { result
        ≡ crosses (first_end_of graph.now) (second_end_of graph.now) (slice_index numbers.now) v }
{
    let (a, b) = graph.ends_of(v);
    numbers[a as usize] != numbers[b as usize]
}

/// The lowest free edge whose ends have different numbers, else the lowest free edge.
pub(crate) fn parts_edge(graph: &Graph, p: &Position, numbers: &[u16]) -> u16
    requires graph { IsGraph graph.now }
    requires numbers { length numbers.now ≡ graph.now.vertices }
    ensures { result ≡ parts_edge graph.now p.now numbers.now }
{
    for v in 0..graph.edge_count() {
        if p.is_free(v) && crosses(graph, numbers, v) {
            return v;
        }
    }
    lowest_free(graph, p)
}
