//! How far a search is, said on standard error.
ghost use Rattle.pg_finder.specs.Findings.{IsFound};

use pg_base::Memory;
use pg_finder::ProofNumbers;
use pg_game::Game;
use pg_limits::{Progress, Watch};
use pg_settle::{Budget, Finder, Outcome};
use std::alloc::Global;

/// A line on standard error that says how far the search is. Each note takes the place of the last.
#[derive(Clone, Copy)]
pub(crate) struct ProgressLine<'a> {
    rt: &'a HostRuntime,
    is_shown: bool,
}

impl ProgressLine<'_> {
    /// Clears the line.
    fn clear(&self) {
        if self.is_shown {
            let _ = eprint!(self.rt; "\r\x1b[K");
        }
    }
}

impl Watch for ProgressLine<'_> {
    fn note(&mut self, progress: Progress) {
        if !self.is_shown {
            return;
        }
        let _ = match progress {
            Progress::Searching {
                expanded,
                entries,
                proof,
                disproof,
            } => eprint!(self.rt;
                "\r\x1b[Kexpanded {expanded}, kept {entries}, numbers {proof} and {disproof}"
            ),
            Progress::Writing { nodes } => eprint!(self.rt; "\r\x1b[Knodes {nodes}"),
        };
    }
}

/// The finder of `pg_finder`, with a line that is cleared before anything is printed.
#[derive(Clone, Copy)]
pub(crate) struct ShownFinder<'a> {
    finder: ProofNumbers<ProgressLine<'a>>,
}

impl<'a> ShownFinder<'a> {
    /// Returns the finder; the line is shown if `is_shown`.
    pub(crate) fn new(rt: &'a HostRuntime, is_shown: bool) -> ShownFinder<'a> {
        ShownFinder {
            finder: ProofNumbers {
                watch: ProgressLine { rt, is_shown },
            },
        }
    }
}

impl Finder for ShownFinder<'_> {
    ghost brings = { λ _ game budget outcome. IsFound game budget outcome.finding };

    fn find(&mut self, alloc: Global, game: &Game, budget: Budget) -> Result<Outcome, Memory> {
        let found = self.finder.find(alloc, game, budget);
        self.finder.watch.clear();
        found
    }
}
