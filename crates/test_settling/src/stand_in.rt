//! A finder that brings certificates of a list.
use pg_base::{Memory, Score};
use pg_cert_files::read_cert;
use pg_game::Game;
use pg_settle::{Budget, Finder, Finding, Outcome};
use pg_text::FileError;
use std::alloc::Global;

/// A finder that looks at no game: at each call it brings the next certificate of a list for the
/// next score, and tells that it used up its budget.
#[derive(Clone, Copy)]
pub(crate) struct StandIn<'a> {
    /// The scores, as `x`, `y` or `draw`, with ` then ` between each two.
    pub(crate) scores: &'a str,
    /// The texts of the certificates, likewise. Where one is none, nothing is brought.
    pub(crate) certificates: &'a str,
    /// How many calls there were.
    pub(crate) calls: usize,
}

/// The entry of a list with so many before it.
fn entry_of(list: &str, before: usize) -> &str {
    list.split(" then ").nth(before).unwrap_or("")
}

/// The score of a word.
fn score_of(word: &str) -> Score {
    match word {
        "x" => Score::XWins,
        "y" => Score::YWins,
        _ => Score::Draw,
    }
}

impl<'a> Finder for StandIn<'a> {
    fn find(&mut self, alloc: Global, _: &Game, budget: Budget) -> Result<Outcome, Memory> {
        let score = score_of(entry_of(self.scores, self.calls));
        let text = entry_of(self.certificates, self.calls);
        self.calls = self.calls.saturating_add(1);
        let finding = match read_cert(alloc, text.as_bytes()) {
            Ok(certificate) => Finding::Certificate { score, certificate },
            Err(FileError::Bad { .. }) => Finding::Open,
            Err(FileError::Memory) => return Err(Memory),
        };
        Ok(Outcome {
            finding,
            expanded: budget.positions,
        })
    }
}
