//! Whether a connectivity game is over and who has won.
ghost use Rattle.std.specs.Prelude.{◌≡◌, ◌<◌, true, IfOk};
ghost use Rattle.pg_span.specs.Prelude.{contains, AreBelow, IsGraph, edge_count, IsMadeFor};
ghost use Rattle.pg_span.specs.Prelude.{ending_by, judged_by};
ghost use Rattle.pg_span.specs.Judge.{connects, IsJudgeOf};
ghost use Rattle.pg_span.specs.Game.{span_rules_of};

use crate::game::SpanGame;
use pg_base::{Memory, PointSet, Score};
use pg_game::{Illegal, Position};
use pg_graph::{Graph, Joiner};
use std::alloc::Global;

/// How many edges each side claims in a turn.
pub(crate) const BIAS: u8 = 1;

/// Judges positions and moves of one connectivity game. No call after `new` takes memory.
#[derive(Debug, Drop)]
pub(crate) struct SpanJudge {
    /// Room to work in.
    pub(crate) joiner: Joiner,
    /// Whether all edges together join every two vertices.
    whole: bool,
}

/// Whether edges of the set join vertex 0 with every other.
fn joins_each(joiner: &mut Joiner, graph: &Graph, set: &PointSet) -> bool
    requires graph { IsGraph graph.now }
    requires some { 0 < graph.now.vertices }
    requires made { IsMadeFor joiner.old graph.now }
    requires set { AreBelow set.now (edge_count graph.now) }
    ensures joins { result ≡ connects graph.now (contains set.now) }
    ensures kept { joiner.new ≡ joiner.old }
{
    for v in 0..graph.vertices {
        if !joiner.joined(graph, set, 0, v) {
            return false;
        }
    }
    true
}

impl SpanJudge {
    /// A judge for the game. `Memory` says that there is no room for it.
    pub(crate) fn new(alloc: Global, g: &SpanGame) -> Result<SpanJudge, Memory>
        ensures { IfOk result (λ judge. IsJudgeOf judge g.now) }
    {
        let mut joiner = Joiner::new(alloc, &g.graph)?;
        let whole = joins_each(
            &mut joiner,
            &g.graph,
            &PointSet::all_below(g.graph.edge_count()),
        );
        Ok(SpanJudge { joiner, whole })
    }

    /// Whether the edges of the set join every two vertices: all edges do, and none leads out of
    /// what the set joins to vertex 0. It takes nearly linear time.
    pub(crate) fn connects(&mut self, g: &SpanGame, set: &PointSet) -> bool
        requires made { IsJudgeOf self.old g.now }
        requires set { AreBelow set.now (edge_count g.now.graph) }
        ensures joins { result ≡ connects g.now.graph (contains set.now) }
        ensures kept { self.new ≡ self.old }
    {
        let all = PointSet::all_below(g.graph.edge_count());
        self.whole && self.joiner.crossing(&g.graph, set, 0, &all).is_none()
    }

    /// The outcome of the position, and None exactly where it isn't over.
    pub(crate) fn ending(&mut self, g: &SpanGame, p: &Position) -> Option<Score>
        requires made { IsJudgeOf self.old g.now }
        requires range { AreBelow p.now.x (edge_count g.now.graph) }
        ensures ending { result ≡ ending_by (span_rules_of g.now) p.now }
        ensures kept { self.new ≡ self.old }
    {
        if self.connects(g, &p.x) {
            return Some(Score::XWins);
        }
        let left = PointSet::all_below(g.graph.edge_count()).without(&p.y);
        if self.connects(g, &left) {
            None
        } else {
            Some(Score::YWins)
        }
    }
}

/// The position after the side to move takes the edge in a position with that outcome, which may be
/// none yet.
///
/// # Errors
///
/// `Range` where the game has no such edge, else `Over` where it is over, else `Taken` where the
/// edge isn't free.
pub(crate) fn play(
    g: &SpanGame,
    p: &Position,
    ending: Option<Score>,
    v: u16,
) -> Result<Position, Illegal>
    requires { ending ≡ ending_by (span_rules_of g.now) p.now }
    ensures { result ≡ judged_by (span_rules_of g.now) p.now v }
{
    if v >= g.graph.edge_count() {
        return Err(Illegal::Range);
    }
    if ending.is_some() {
        return Err(Illegal::Over);
    }
    if !p.is_free(v) {
        return Err(Illegal::Taken);
    }
    Ok(p.after(BIAS, v))
}
