//! How much a finder may use.
ghost use Rattle.std.specs.Prelude.{◌≡◌, ◌≤◌, IfSome};
ghost use Rattle.pg_settle.specs.Budgets.{IsBudget, IsPart, budget_for, part_for};

use pg_cert::MAX_NODES;

/// The least value of each number of a budget.
pub const MIN_BUDGET: u32 = 1;

/// The greatest number of positions that may be expanded.
pub const MAX_EXPANDED: u32 = 100_000_000;

/// How many positions may be expanded where none are said.
pub const DEFAULT_EXPANDED: u32 = 1_000_000;

/// The greatest number of entries of a table of positions.
pub const MAX_ENTRIES: u32 = 100_000_000;

/// How many entries a table of positions may have where none are said.
pub const DEFAULT_ENTRIES: u32 = 1_000_000;

/// How much a finder may use.
#[derive(Clone, Copy, Debug, PartialEq, Eq)]
pub struct Budget {
    /// How many positions may be expanded: 1 to 100,000,000.
    pub positions: u32,
    /// How many entries its table of positions may have: 1 to 100,000,000.
    pub entries: u32,
    /// How many nodes its certificate may have: 1 to 200,000.
    pub nodes: u32,
}

/// A number of a budget: the one that is asked for, where it may be, and the usual one where none
/// is.
fn part_for(asked: Option<u32>, usual: u32, most: u32) -> Option<u32>
    requires { IsPart most usual }
    ensures exact { result ≡ part_for usual most asked }
    ensures within { IfSome result (IsPart most) }
{
    match asked {
        None => Some(usual),
        Some(n) if MIN_BUDGET <= n && n <= most => Some(n),
        Some(_) => None,
    }
}

/// The budget of these numbers, each the usual one where none is asked for; the usual number of
/// nodes is the greatest. None exactly where a number is outside its range.
pub fn budget_for(
    positions: Option<u32>,
    entries: Option<u32>,
    nodes: Option<u32>,
) -> Option<Budget>
    ensures exact { result ≡ budget_for positions entries nodes }
    ensures within { IfSome result IsBudget }
{
    let positions = part_for(positions, DEFAULT_EXPANDED, MAX_EXPANDED)?;
    let entries = part_for(entries, DEFAULT_ENTRIES, MAX_ENTRIES)?;
    let nodes = part_for(nodes, MAX_NODES, MAX_NODES)?;
    Some(Budget {
        positions,
        entries,
        nodes,
    })
}
