//! Joining, as a finder.
ghost use Rattle.std.specs.Prelude.{IfOk};
ghost use Rattle.pg_join.specs.Brought.{HasFewNodes, IsJoined};
ghost use Rattle.pg_settle.specs.Findings.{IsWritable};

use crate::folder::Folder;
use crate::joined::certificate_for;
use crate::needed::Needed;
use crate::survey::survey;
use pg_backing::{View, copy_of, needs_of, positions_of, spans_of};
use pg_base::{Memory, Score};
use pg_game::Game;
use pg_io::Files;
use pg_plan::Plan;
use pg_results::node_count;
use pg_settle::{Budget, Finder, Finding, Outcome};
use std::alloc::Global;

/// What joins the certificates in a folder to one of the game that was split: a finder, which isn't
/// trusted. It expands no positions.
///
/// After it was asked, `needed` has the positions whose values are needed for that of the game. If
/// no certificate came and no position is needed, the plan isn't one of the game, the proofs don't
/// fit together, or they have too many nodes.
#[derive(Drop)]
pub struct Joiner<'a, F: Files + Drop> {
    plan: &'a Plan,
    folder: Folder<'a, F>,
    /// The positions that are needed, the most telling first.
    pub needed: Needed,
}

impl<'a, F: Files + Drop> Joiner<'a, F> {
    /// Returns what joins the certificates in the folder of this name by a plan, read by these
    /// files.
    ///
    /// # Errors
    ///
    /// `Memory` if memory runs out.
    pub fn new(
        alloc: Global,
        plan: &'a Plan,
        folder: &'a str,
        files: F,
    ) -> Result<Joiner<'a, F>, Memory> {
        let needed = Needed::new(alloc, Vec::new(alloc))?;
        Ok(Joiner {
            plan,
            folder: Folder::new(folder, files),
            needed,
        })
    }

    /// Returns a certificate of the value of the game's position, if the folder has those on which
    /// it rests; else none, and what is needed is kept.
    fn join(&mut self, alloc: Global, game: &Game, budget: Budget) -> Result<Finding, Memory>
        ensures writable { IfOk result IsWritable }
        ensures few { IfOk result (HasFewNodes budget.nodes) }
    {
        let Some(mut there) = copy_of(alloc, game)? else {
            return Ok(Finding::Open);
        };
        let plan: &'a Plan = self.plan;
        let plan = plan.as_slice();
        let positions = positions_of(alloc, game, plan)?;
        let own = survey(alloc, &mut there, plan, &positions, &mut self.folder)?;
        let spans = spans_of(alloc, game, plan, &positions, &own)?;
        let view = View {
            game,
            plan,
            positions: positions.as_slice(),
            own: own.as_slice(),
            spans: spans.as_slice(),
        };
        let needs = needs_of(alloc, &view)?;
        self.needed = Needed::new(alloc, needs)?;
        match spans.last() {
            Some(span) if span.low == span.high => {
                bring(alloc, &view, span.low, budget, &mut self.folder)
            }
            _ => Ok(Finding::Open),
        }
    }
}

/// Returns a certificate that is to show the score, if the folder has those on which it rests and
/// it has no more nodes than the budget allows.
fn bring<F: Files + Drop>(
    alloc: Global,
    view: &View<'_>,
    score: Score,
    budget: Budget,
    folder: &mut Folder<'_, F>,
) -> Result<Finding, Memory>
    ensures writable { IfOk result IsWritable }
    ensures few { IfOk result (HasFewNodes budget.nodes) }
{
    let Some(certificate) = certificate_for(alloc, view, score, folder)? else {
        return Ok(Finding::Open);
    };
    if node_count(&certificate) > budget.nodes {
        return Ok(Finding::Open);
    }
    Ok(Finding::Certificate { score, certificate })
}

impl<'a, F: Files + Drop> Finder for Joiner<'a, F> {
    ghost brings = { λ _ _ budget outcome. IsJoined budget outcome };

    fn find(&mut self, alloc: Global, game: &Game, budget: Budget) -> Result<Outcome, Memory> {
        let finding = self.join(alloc, game, budget)?;
        Ok(Outcome {
            finding,
            expanded: 0,
        })
    }
}
