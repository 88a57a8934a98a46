//! Who joins or parts the terminals of a graph.
ghost use Rattle.std.specs.Prelude.{◌≡◌, ℕ, ◌<◌, ◌≤◌, ◌&&◌, not, nat_lt, length};
ghost use Rattle.pg_game.specs.Prelude.{contains, IsMadeFor};
ghost use Rattle.pg_game.specs.Field.{terminals_joined};
ghost use Rattle.pg_game.specs.Fit.{IsBoard, AreBelow};
ghost use Rattle.pg_game.specs.Judge.{joining_result};

use crate::position::Position;
use pg_base::{MAX_MEMBERS, PointSet, Score};
use pg_graph::{Graph, Joiner};

/// The points below the limit that aren't in the set.
fn outside(points: &PointSet, limit: u16) -> PointSet
    requires { limit ≤ MAX_MEMBERS }
    ensures { (v : ℕ) → contains result v ≡ (nat_lt v limit && not (contains points.now v)) }
{
    PointSet::all_below(limit).without(points)
}

/// Whether the edges of the set join the terminals.
fn joined(joiner: &mut Joiner, graph: &Graph, set: &PointSet) -> bool
    requires board { IsBoard graph.now }
    requires made { IsMadeFor joiner.old graph.now }
    requires set { AreBelow set.now (length graph.now.ends) }
    ensures joined { result ≡ terminals_joined graph.now (contains set.now) }
    ensures kept { joiner.new ≡ joiner.old }
{
    joiner.joined(graph, set, graph.s, graph.t)
}

/// The result where X joins the terminals and Y parts them.
pub(crate) fn joining_result(joiner: &mut Joiner, graph: &Graph, p: &Position) -> Option<Score>
    requires board { IsBoard graph.now }
    requires made { IsMadeFor joiner.old graph.now }
    requires x_range { AreBelow p.now.x (length graph.now.ends) }
    ensures result { result ≡ joining_result (terminals_joined graph.now (contains p.now.x))
        (terminals_joined graph.now (λ e. not (contains p.now.y e))) }
    ensures kept { joiner.new ≡ joiner.old }
{
    if joined(joiner, graph, &p.x) {
        return Some(Score::XWins);
    }
    let left = outside(&p.y, graph.edge_count());
    if joined(joiner, graph, &left) {
        None
    } else {
        Some(Score::YWins)
    }
}
