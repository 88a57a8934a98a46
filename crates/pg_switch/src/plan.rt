//! Plans by trees and by cuts.
ghost use Rattle.std.specs.Prelude.{◌≡◌, ◌<◌};
ghost use Rattle.pg_switch.specs.Prelude.{remove, X, Y, IsGraph, IsMadeForGame};
ghost use Rattle.pg_switch.specs.Prelude.{answered_edge, TreesHold, CutsHold};
ghost use Rattle.pg_switch.specs.Replies.{IsSwitchingTurn, HeldUntil, LeavesHeld, IsTreesAnswer};
ghost use Rattle.pg_switch.specs.Replies.{IsCutsAnswer};

use crate::answers::{cut_edge, short_edge};
use pg_base::{MAX_MEMBERS, PointSet};
use pg_game::{Field, Game, Position};
use pg_graph::{Graph, Joiner};

/// A plan for Short: two sets that are trees for X wherever Y is to move.
#[derive(Clone, Copy, Debug)]
pub struct ShortPlan {
    /// The one set, which may hold `e` before the first move.
    pub first: PointSet,
    /// The other set.
    pub second: PointSet,
}

/// A plan for Cut: two sets that are cuts for Y wherever X is to move.
#[derive(Clone, Copy, Debug)]
pub struct CutPlan {
    /// The one set, which may hold `e` before the first move.
    pub first: PointSet,
    /// The other set.
    pub second: PointSet,
}

/// The set without the lost and the claimed point.
pub fn without_both(set: &PointSet, lost: u16, claimed: u16) -> PointSet
    requires lost { lost < MAX_MEMBERS }
    requires claimed { claimed < MAX_MEMBERS }
    ensures { result ≡ remove (remove set.now lost) claimed }
{
    let mut others = *set;
    others.take(lost);
    others.take(claimed);
    others
}

/// The edge that is answered: the last reply, or e before any.
pub fn answered_edge(graph: &Graph, last: Option<u16>) -> u16
    requires { IsGraph graph.now }
    ensures { result ≡ answered_edge graph.now last }
{
    match last {
        Some(x) => x,
        None => graph.edge_count(),
    }
}

impl ShortPlan {
    /// A plan by these two sets.
    pub fn start(a1: PointSet, a2: PointSet) -> ShortPlan
        ensures first { result.first ≡ a1 }
        ensures second { result.second ≡ a2 }
    {
        ShortPlan {
            first: a1,
            second: a2,
        }
    }

    /// Short's answer to the last reply. Where the reply was in one of the sets, it is the lowest
    /// edge of the other with exactly one end joined to the first end of the reply by X's edges and
    /// the rest of the one set; where there is no such edge, or the reply was in no set, it is the
    /// lowest free edge. Without a reply `e` is answered. The reply and the answer leave the sets.
    ///
    /// The sets must have been trees before the reply, or be trees now where none came. They are
    /// trees again after the answer, without `e`. It takes no memory, and leaves the joiner as it
    /// was. The answer is Lehman's (A solution of the Shannon switching game, 1964).
    pub fn answer(&mut self, g: &Game, j: &mut Joiner, p: &Position, last: Option<u16>) -> u16
        requires turn { IsSwitchingTurn g.now p.now X }
        requires made { IsMadeForGame j.old g.now }
        requires held { HeldUntil g.now p.now
            (λ q. TreesHold g.now q self.old.first self.old.second) last }
        ensures rule { IsTreesAnswer g.now.field p.now self.old.first self.old.second last (record {
          edge = result;
          first = self.new.first;
          second = self.new.second;
        }) }
        ensures leaves { LeavesHeld g.now p.now
            (λ q. TreesHold g.now q self.new.first self.new.second) result self.new.first }
        ensures kept { j.new ≡ j.old }
    {
        match &g.field {
            Field::Lines(_) => unreachable!(),
            Field::Graph(graph) => {
                let x = answered_edge(graph, last);
                let edge = short_edge(graph, j, p, &self.first, &self.second, x);
                self.first = without_both(&self.first, x, edge);
                self.second = without_both(&self.second, x, edge);
                edge
            }
        }
    }
}

impl CutPlan {
    /// A plan by these two sets.
    pub fn start(d1: PointSet, d2: PointSet) -> CutPlan
        ensures first { result.first ≡ d1 }
        ensures second { result.second ≡ d2 }
    {
        CutPlan {
            first: d1,
            second: d2,
        }
    }

    /// Cut's answer to the last reply. Where the reply was in one of the sets, and the edges that
    /// weren't Y's join its ends without that set, it is the lowest edge of the other set whose
    /// removal parts them there; otherwise it is the lowest free edge. Without a reply `e` is
    /// answered. The reply and the answer leave the sets.
    ///
    /// The sets must have been cuts before the reply, or be cuts now where none came. They are cuts
    /// again after the answer, without `e`. It takes no memory, and leaves the joiner as it was.
    /// The answer is the dual of Lehman's.
    pub fn answer(&mut self, g: &Game, j: &mut Joiner, p: &Position, last: Option<u16>) -> u16
        requires turn { IsSwitchingTurn g.now p.now Y }
        requires made { IsMadeForGame j.old g.now }
        requires held { HeldUntil g.now p.now
            (λ q. CutsHold g.now q self.old.first self.old.second) last }
        ensures rule { IsCutsAnswer g.now.field p.now self.old.first self.old.second last (record {
          edge = result;
          first = self.new.first;
          second = self.new.second;
        }) }
        ensures leaves { LeavesHeld g.now p.now
            (λ q. CutsHold g.now q self.new.first self.new.second) result self.new.first }
        ensures kept { j.new ≡ j.old }
    {
        match &g.field {
            Field::Lines(_) => unreachable!(),
            Field::Graph(graph) => {
                let x = answered_edge(graph, last);
                let edge = cut_edge(graph, j, p, &self.first, &self.second, x);
                self.first = without_both(&self.first, x, edge);
                self.second = without_both(&self.second, x, edge);
                edge
            }
        }
    }
}
