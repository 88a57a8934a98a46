//! The search for shared pairs.
ghost use Rattle.std.specs.Prelude.{◌≡◌, ◌<◌, ◌≤◌, IfOk, IfSome, IfNone, length};
ghost use Rattle.pg_shared.specs.Prelude.{All, MAX_MEMBERS};

use crate::choices::{Choice, choices_in, take_cheapest};
use crate::lines::OpenLine;
use pg_base::{Memory, Pair, PointSet};
use std::alloc::Global;

/// The pairs that are chosen, one for each level, and those that are still to be tried at each
/// level and at the next.
#[derive(Debug, Drop)]
struct Search {
    lines: Vec<OpenLine>,
    /// The points of the chosen pairs.
    used: PointSet,
    chosen: Vec<Choice>,
    untried: Vec<Vec<Choice>>,
    /// Whether pairs were found, once that is known.
    found: Option<bool>,
}

/// How many of the two points the set has.
fn count_in(points: &PointSet, choice: &Choice) -> u32
    ensures { result ≤ 2 }
{
    u32::from(points.has(choice.a)) + u32::from(points.has(choice.b))
}

/// Takes the points of a choice from the line; so many pairs are then chosen.
fn choose_in(line: &mut OpenLine, choice: &Choice, level: usize)
    ensures { line.new.points ≡ line.old.points }
{
    let count = count_in(&line.points, choice);
    line.left = line.left.saturating_sub(count);
    if count == 2 && line.held_by == 0 {
        line.held_by = level;
    }
}

/// Gives the points of a choice back to the line; so many pairs were chosen with it.
fn leave_in(line: &mut OpenLine, choice: &Choice, level: usize)
    ensures { line.new.points ≡ line.old.points }
{
    let count = count_in(&line.points, choice);
    line.left = line.left.saturating_add(count);
    if line.held_by == level {
        line.held_by = 0;
    }
}

/// Takes the points of a choice from all lines.
fn choose_in_all(lines: &mut [OpenLine], choice: &Choice, level: usize) {
    for j in 0..lines.len() {
        choose_in(&mut lines[j], choice, level);
    }
}

/// Gives the points of a choice back to all lines.
fn leave_in_all(lines: &mut [OpenLine], choice: &Choice, level: usize) {
    for j in 0..lines.len() {
        leave_in(&mut lines[j], choice, level);
    }
}

/// Whether the line at the place holds no pair, and has fewer points left than the best.
fn is_fewer(lines: &[OpenLine], i: usize, best: Option<usize>) -> bool
    requires range { i < length lines.now }
    requires best { IfSome best (λ j. j < length lines.now) }
{
    if lines[i].held_by > 0 {
        return false;
    }
    match best {
        Some(j) => lines[i].left < lines[j].left,
        None => true,
    }
}

/// The first of the lines without a pair that have fewest points in no pair, and None exactly where
/// each line holds a pair.
fn fewest(lines: &[OpenLine]) -> Option<usize>
    ensures some { IfSome result (λ i. i < length lines.now) }
{
    let mut best = None;
    for i in 0..lines.len() {
        if is_fewer(lines, i, best) {
            best = Some(i);
        }
    }
    best
}

/// The pairs of the choices.
fn pairs_of(alloc: Global, chosen: &[Choice]) -> Result<Vec<Pair>, Memory>
    ensures { IfOk result
        (λ pairs. All (λ s. (s.a < MAX_MEMBERS) × (s.b < MAX_MEMBERS)) pairs.items) }
{
    let mut pairs = Vec::new(alloc);
    for choice in chosen {
        pairs.push(Pair {
            a: choice.a,
            b: choice.b,
        })?;
    }
    Ok(pairs)
}

impl Search {
    /// No pair chosen, and nothing known.
    fn new(alloc: Global, lines: Vec<OpenLine>) -> Search {
        Search {
            lines,
            used: PointSet::empty(),
            chosen: Vec::new(alloc),
            untried: Vec::new(alloc),
            found: None,
        }
    }

    /// Lists what may be chosen next; where each line holds a pair, the pairs are found.
    fn go_on(&mut self, alloc: Global) -> Result<(), Memory> {
        let lines = self.lines.as_slice();
        let Some(i) = fewest(lines) else {
            self.found = Some(true);
            return Ok(());
        };
        let free = lines[i].points.without(&self.used);
        let choices = choices_in(alloc, lines, &free)?;
        self.untried.push(choices)?;
        Ok(())
    }

    /// Chooses a pair.
    fn choose(&mut self, choice: Choice) -> Result<(), Memory> {
        self.chosen.push(choice)?;
        self.used.put(choice.a);
        self.used.put(choice.b);
        let level = self.chosen.len();
        choose_in_all(self.lines.as_mut_slice(), &choice, level);
        Ok(())
    }

    /// Gives up the pair that was chosen last; where there is none, no pairs are found.
    fn leave(&mut self) {
        let level = self.chosen.len();
        let Some(choice) = self.chosen.pop() else {
            self.found = Some(false);
            return;
        };
        self.used.take(choice.a);
        self.used.take(choice.b);
        leave_in_all(self.lines.as_mut_slice(), &choice, level);
    }

    /// Chooses the best pair that is still to be tried, or gives up the last one where there is no
    /// more.
    fn step(&mut self, alloc: Global) -> Result<(), Memory> {
        let Some(mut untried) = self.untried.pop() else {
            self.found = Some(false);
            return Ok(());
        };
        let Some(choice) = take_cheapest(&mut untried) else {
            self.leave();
            return Ok(());
        };
        self.untried.push(untried)?;
        self.choose(choice)?;
        self.go_on(alloc)
    }
}

/// Pairs of different points such that each of the lines holds one, where at most so many steps
/// find them. A step chooses a pair or gives one up.
pub(crate) fn seek(
    alloc: Global,
    lines: Vec<OpenLine>,
    budget: u32,
) -> Result<Option<Vec<Pair>>, Memory>
    ensures { IfOk result (λ found. IfSome found
        (λ pairs. All (λ s. (s.a < MAX_MEMBERS) × (s.b < MAX_MEMBERS)) pairs.items)) }
{
    let mut search = Search::new(alloc, lines);
    search.go_on(alloc)?;
    for _step in 0..budget {
        if search.found.is_some() {
            break;
        }
        search.step(alloc)?;
    }
    match search.found {
        Some(true) => Ok(Some(pairs_of(alloc, search.chosen.as_slice())?)),
        _ => Ok(None),
    }
}
