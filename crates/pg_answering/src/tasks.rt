//! What the options of `posgame-settle` ask for.
ghost use Rattle.std.specs.Prelude.{◌≡◌, map, string_bytes, IfSome};
ghost use Rattle.pg_settle.specs.Budgets.{IsBudget};
ghost use Rattle.pg_answering.specs.Tasks.{is_option, wishes_of};

use pg_request::options_of;
use pg_settle::{Budget, budget_for};

/// The sign with which an option begins.
pub const DASH: u8 = b'-';

/// How a game is to be settled, or its moves are to be tried.
#[derive(Clone, Copy, Debug, PartialEq, Eq)]
pub struct Wishes {
    /// How much the finder may use.
    pub budget: Budget,
    /// Whether the certificate is to be folded.
    pub images: bool,
    /// Whether the result is printed as JSON.
    pub json: bool,
}

/// Returns whether the word begins as an option does.
pub(crate) fn is_option(word: &[u8]) -> bool
    ensures { result ≡ is_option word.now }
{
    match word {
        [] => false,
        [first, ..] => *first == DASH,
    }
}

/// Returns what the options ask for; `None` if one has no meaning or is repeated, or if a number is
/// outside its range.
pub fn wishes_of(options: &[String]) -> Option<Wishes>
    ensures exact { result ≡ wishes_of (map string_bytes options.now) }
    ensures within { IfSome result (λ wishes. IsBudget wishes.budget) }
{
    let options = options_of(options)?;
    let budget = budget_for(options.positions, options.entries, options.nodes)?;
    Some(Wishes {
        budget,
        images: options.images,
        json: options.json,
    })
}
