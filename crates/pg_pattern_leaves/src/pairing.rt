//! Shared pairs: two free points for each line that Maker may still fill, where two lines may have
//! the same two.
ghost use Rattle.std.specs.Prelude.{◌<◌, IfSome, length};

use pg_base::Memory;
use pg_patterns::{SmallPair, SmallSet};
use std::alloc::Global;

/// The cost of a line without a pair that a choice leaves as it is.
const UNTOUCHED: u32 = 16;

/// A pair that may be chosen, and its cost.
#[derive(Clone, Copy, Debug)]
struct Choice {
    pair: SmallPair,
    /// The cost of the lines without a pair after it. The choice of least cost is tried first.
    cost: u32,
}

/// The lines without a pair, and the choices to be tried for one of them.
#[derive(Debug, Drop)]
struct Level {
    lines: Vec<SmallSet>,
    /// The points of the chosen pairs.
    used: SmallSet,
    untried: Vec<Choice>,
}

/// The outcome of a choice.
#[derive(Debug, Drop)]
enum Reached {
    /// Each line holds a pair.
    Found,
    /// Some line has too few points left.
    Hopeless,
    /// More pairs must be chosen.
    Going(Level),
}

/// Tests whether one of the lines is within the line.
fn is_needless(kept: &[SmallSet], line: SmallSet) -> bool {
    for other in kept {
        if other.is_subset(line) {
            return true;
        }
    }
    false
}

/// Adds to `kept` the lines of the given number of points that contain no kept line.
fn keep_least(lines: &[SmallSet], points: u32, kept: &mut Vec<SmallSet>) -> Result<(), Memory> {
    for line in lines {
        if line.len() == points && !is_needless(kept.as_slice(), *line) {
            kept.push(*line)?;
        }
    }
    Ok(())
}

/// Returns the lines that contain no other line, the smallest first. Pairs that serve these serve
/// all. `longest` is the number of points of the longest line.
///
/// # Errors
///
/// `Memory` if an allocation fails.
pub fn least_lines(
    alloc: Global,
    lines: &[SmallSet],
    longest: u32,
) -> Result<Vec<SmallSet>, Memory> {
    let mut kept = Vec::new(alloc);
    for points in 0..=longest.min(256) {
        keep_least(lines, points, &mut kept)?;
    }
    Ok(kept)
}

/// Returns the points outside the set of the line with the fewest, and their number.
fn fewest(lines: &[SmallSet], used: SmallSet) -> Option<(SmallSet, u32)> {
    let mut best: Option<(SmallSet, u32)> = None;
    for line in lines {
        let free = line.without(used);
        let count = free.len();
        let is_better = match best {
            Some((_, least)) => count < least,
            None => true,
        };
        if is_better {
            best = Some((free, count));
        }
    }
    best
}

/// Returns the cost of the line once the two points are chosen: 0 if it has both, and None if it
/// could contain no pair any more.
fn cost_at(line: SmallSet, used: SmallSet, pair: SmallPair) -> Option<u32> {
    match (line.has(pair.a), line.has(pair.b)) {
        (true, true) => Some(0),
        (false, false) => Some(UNTOUCHED),
        _ => match line.without(used).len() {
            0..=2 => None,
            3 => Some(UNTOUCHED + 8),
            4 => Some(UNTOUCHED + 4),
            5 => Some(UNTOUCHED + 2),
            _ => Some(UNTOUCHED + 1),
        },
    }
}

/// Returns the cost of all lines once the two points are chosen, and None if one could contain no
/// pair any more.
fn cost_of(lines: &[SmallSet], used: SmallSet, pair: SmallPair) -> Option<u32> {
    let mut cost: u32 = 0;
    for line in lines {
        let more = cost_at(*line, used, pair)?;
        cost = cost.saturating_add(more);
    }
    Some(cost)
}

/// Adds to the choices the pairs of `a` and a greater point of the set that leave a pair for each
/// line.
fn put_choices(
    lines: &[SmallSet],
    used: SmallSet,
    free: SmallSet,
    a: u8,
    choices: &mut Vec<Choice>,
) -> Result<(), Memory> {
    for b in free.members() {
        let pair = SmallPair { a, b };
        if a < b {
            if let Some(cost) = cost_of(lines, used, pair) {
                choices.push(Choice { pair, cost })?;
            }
        }
    }
    Ok(())
}

/// Returns the outcome of the chosen points; the lines contain none of the chosen pairs.
fn outcome_of(alloc: Global, lines: Vec<SmallSet>, used: SmallSet) -> Result<Reached, Memory> {
    let Some((free, count)) = fewest(lines.as_slice(), used) else {
        return Ok(Reached::Found);
    };
    if count < 2 {
        return Ok(Reached::Hopeless);
    }
    let mut untried = Vec::new(alloc);
    for a in free.members() {
        put_choices(lines.as_slice(), used, free, a, &mut untried)?;
    }
    Ok(Reached::Going(Level {
        lines,
        used,
        untried,
    }))
}

/// Returns the place of a choice of least cost, and None if there is no choice.
fn cheapest(choices: &[Choice]) -> Option<usize>
    ensures some { IfSome result (λ i. i < length choices.now) }
{
    if choices.is_empty() {
        return None;
    }
    let mut best = 0;
    for i in 1..choices.len() {
        if choices[i].cost < choices[best].cost {
            best = i;
        }
    }
    Some(best)
}

/// Removes a choice of least cost and returns it, or None if there is none.
fn take_cheapest(choices: &mut Vec<Choice>) -> Option<Choice> {
    let i = cheapest(choices.as_slice())?;
    Some(choices.remove(i))
}

/// Returns the lines that don't contain the pair.
fn without_pair(
    alloc: Global,
    lines: &[SmallSet],
    pair: SmallPair,
) -> Result<Vec<SmallSet>, Memory> {
    let mut left = Vec::new(alloc);
    for line in lines {
        if !line.has(pair.a) || !line.has(pair.b) {
            left.push(*line)?;
        }
    }
    Ok(left)
}

/// The outcome of a step of the search.
#[derive(Clone, Copy, Debug, PartialEq, Eq)]
enum Stepped {
    /// The chosen pairs serve.
    Found,
    /// No pairs serve.
    Exhausted,
    /// A pair was tried.
    Tried,
    /// The last pair was given up.
    Left,
}

/// Tries the cheapest pair that is left, or gives up the last chosen one if none is left.
fn step(
    alloc: Global,
    levels: &mut Vec<Level>,
    chosen: &mut Vec<SmallPair>,
) -> Result<Stepped, Memory> {
    let Some(mut level) = levels.pop() else {
        return Ok(Stepped::Exhausted);
    };
    let Some(choice) = take_cheapest(&mut level.untried) else {
        let _last = chosen.pop();
        return Ok(Stepped::Left);
    };
    let pair = choice.pair;
    let lines = without_pair(alloc, level.lines.as_slice(), pair)?;
    let next = outcome_of(alloc, lines, level.used.union(pair.points()))?;
    levels.push(level)?;
    match next {
        Reached::Found => {
            chosen.push(pair)?;
            Ok(Stepped::Found)
        }
        Reached::Hopeless => Ok(Stepped::Tried),
        Reached::Going(level) => {
            chosen.push(pair)?;
            levels.push(level)?;
            Ok(Stepped::Tried)
        }
    }
}

/// Returns pairs of different points such that each of the lines contains one, if at most `budget`
/// choices find them. The line with the fewest points in no pair is given one first, the pair that
/// costs least.
///
/// Pairing strategies are Hales and Jewett's (Regularity and positional games, 1963).
///
/// # Errors
///
/// `Memory` if an allocation fails.
pub fn shared_pairs(
    alloc: Global,
    lines: Vec<SmallSet>,
    budget: u32,
) -> Result<Option<Vec<SmallPair>>, Memory> {
    let mut chosen = Vec::new(alloc);
    let mut levels = Vec::new(alloc);
    match outcome_of(alloc, lines, SmallSet::empty())? {
        Reached::Found => return Ok(Some(chosen)),
        Reached::Hopeless => return Ok(None),
        Reached::Going(level) => levels.push(level)?,
    }
    let mut left = budget;
    for _step in 0..2 * u64::from(budget) {
        if left == 0 {
            return Ok(None);
        }
        match step(alloc, &mut levels, &mut chosen)? {
            Stepped::Found => return Ok(Some(chosen)),
            Stepped::Exhausted => return Ok(None),
            Stepped::Tried => left -= 1,
            Stepped::Left => {}
        }
    }
    Ok(None)
}
