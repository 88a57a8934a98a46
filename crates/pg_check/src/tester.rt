//! What the tests of a node work with.
ghost use Rattle.std.specs.Prelude.{◌≡◌, Some, None, IfOk, if◌then◌else◌};
ghost use Rattle.pg_check.specs.Prelude.{IsPosition, is_over, outcome};
ghost use Rattle.pg_check.specs.Tester.{IsReadyFor};

use pg_base::{Kind, Memory, PointSet, Score};
use pg_game::{Game, Judge, Position, joiner_for};
use pg_graph::Joiner;
use pg_potential::{Mask, line_result, masks_of};
use std::alloc::Global;

/// A judge, for a game on a graph a joiner, and the game's points and lines.
#[derive(Debug, Drop)]
pub(crate) struct Tester {
    /// Says whether the game is over.
    pub(crate) judge: Judge,
    /// Says what edges join; there is none on lines.
    pub(crate) joiner: Option<Joiner>,
    /// All points of the game.
    pub(crate) points: PointSet,
    /// The lines of the game; there are none on a graph.
    pub(crate) masks: Vec<Mask>,
}

impl Tester {
    /// A tester for this game. No test of a node takes memory after this.
    pub(crate) fn new(alloc: Global, g: &Game) -> Result<Tester, Memory>
        ensures { IfOk result (λ tester. IsReadyFor tester g.now) }
    {
        Ok(Tester {
            judge: Judge::new(alloc, g)?,
            joiner: joiner_for(alloc, g)?,
            points: PointSet::all_below(g.points()),
            masks: masks_of(alloc, g)?,
        })
    }

    /// The outcome of the position, and None exactly where it isn't over.
    pub(crate) fn over(&mut self, g: &Game, p: &Position) -> Option<Score>
        requires made { IsReadyFor self.old g.now }
        requires position { IsPosition g.now p.now }
        ensures result { result
            ≡ (if is_over g.now p.now then Some (outcome g.now p.now) else None) }
        ensures kept { self.new ≡ self.old }
    {
        match g.kind {
            Kind::Switching => self.judge.over(g, p),
            _ => line_result(&self.masks, g, p),
        }
    }
}
