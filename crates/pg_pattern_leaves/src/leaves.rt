//! Patterns that are shown by themselves.
ghost use Rattle.std.specs.Prelude.{◌≡◌, IfOk, true};
ghost use Rattle.pg_base.specs.Side.{is_same_side};
ghost use Rattle.pg_base.specs.declared.side.Side.TheVariants.{X, Y};
ghost use Rattle.pg_patterns.specs.declared.pattern.Reason.TheVariants.{Over, Potential, Threat};

use crate::hitting::hitting;
use pg_base::{Memory, Side};
use pg_patterns::{Arena, Pattern, Reason, SmallPair, SmallSet, Spot, heaviest_first, weigh};
use std::alloc::Global;

/// Returns the lines with a point of the set.
fn touched(alloc: Global, lines: &[SmallSet], points: SmallSet) -> Result<Vec<SmallSet>, Memory> {
    let mut touched = Vec::new(alloc);
    for line in lines {
        if !line.shares_none(points) {
            touched.push(*line)?;
        }
    }
    Ok(touched)
}

/// Returns a line within the points, if there is one.
fn filled(lines: &[SmallSet], x: SmallSet) -> Option<SmallSet> {
    for line in lines {
        if line.is_subset(x) {
            return Some(*line);
        }
    }
    None
}

/// Returns the pattern of a position at which the game is over: Maker needs a line within its
/// points, or Breaker a few of its own that meet every line.
///
/// # Errors
///
/// `Memory` if an allocation fails.
pub fn over_pattern(alloc: Global, arena: &Arena, spot: &Spot) -> Result<Pattern, Memory>
    ensures reason { IfOk result (λ pattern. pattern.reason ≡ Over) }
    ensures zone { IfOk result (λ pattern. pattern.zone ≡ pattern.held) }
    ensures moves { IfOk result
        (λ pattern. pattern.moves ≡ is_same_side spot.now.turn pattern.claimer) }
{
    let (claimer, held) = match filled(arena.lines.as_slice(), spot.x) {
        Some(line) => (Side::X, line),
        None => (Side::Y, hitting(alloc, arena.lines.as_slice(), spot.y)?),
    };
    Ok(Pattern {
        held,
        zone: held,
        claimer,
        moves: spot.turn.is_same(claimer),
        reason: Reason::Over,
    })
}

/// Tests whether some of the pairs is within the line.
fn holds_pair(pairs: &[SmallPair], line: SmallSet) -> bool {
    for pair in pairs {
        if line.has(pair.a) && line.has(pair.b) {
            return true;
        }
    }
    false
}

/// Tests whether some line without a point of Y contains the pair at the place, but none of those
/// used and none after it.
fn is_needed(
    arena: &Arena,
    y: SmallSet,
    pairs: &[SmallPair],
    place: usize,
    used: &[SmallPair],
) -> bool {
    if place >= pairs.len() {
        return false;
    }
    let (here, later) = (&pairs[place..place + 1], &pairs[place + 1..]);
    for line in &arena.lines {
        if line.shares_none(y)
            && holds_pair(here, *line)
            && !holds_pair(used, *line)
            && !holds_pair(later, *line)
        {
            return true;
        }
    }
    false
}

/// Returns the pairs that some line needs.
fn needed(
    alloc: Global,
    arena: &Arena,
    y: SmallSet,
    pairs: &[SmallPair],
) -> Result<Vec<SmallPair>, Memory> {
    let mut used = Vec::new(alloc);
    for place in 0..pairs.len() {
        if is_needed(arena, y, pairs, place, used.as_slice()) {
            used.push(pairs[place])?;
        }
    }
    Ok(used)
}

/// Returns the lines that contain none of the pairs.
fn without_pair(
    alloc: Global,
    lines: &[SmallSet],
    pairs: &[SmallPair],
) -> Result<Vec<SmallSet>, Memory> {
    let mut left = Vec::new(alloc);
    for line in lines {
        if !holds_pair(pairs, *line) {
            left.push(*line)?;
        }
    }
    Ok(left)
}

/// Returns the points of the pairs.
fn paired(pairs: &[SmallPair]) -> SmallSet {
    let mut points = SmallSet::empty();
    for pair in pairs {
        points = points.union(pair.points());
    }
    points
}

/// Returns the pattern of Breaker's pairs: Breaker needs their points, and a few of its own that
/// meet every line without a pair.
///
/// # Errors
///
/// `Memory` if an allocation fails.
pub fn pairs_pattern(
    alloc: Global,
    arena: &Arena,
    spot: &Spot,
    pairs: &[SmallPair],
) -> Result<Pattern, Memory>
    ensures claimer { IfOk result (λ pattern. pattern.claimer ≡ Y) }
    ensures moves { IfOk result (λ pattern. pattern.moves ≡ is_same_side spot.now.turn Y) }
{
    let used = needed(alloc, arena, spot.y, pairs)?;
    let left = without_pair(alloc, arena.lines.as_slice(), used.as_slice())?;
    let held = hitting(alloc, left.as_slice(), spot.y)?;
    Ok(Pattern {
        held,
        zone: held.union(paired(used.as_slice())),
        claimer: Side::Y,
        moves: spot.turn.is_same(Side::Y),
        reason: Reason::Pairs(used),
    })
}

/// Returns the lines without the point.
fn lines_less(alloc: Global, lines: &[SmallSet], v: u8) -> Result<Vec<SmallSet>, Memory> {
    let mut less = Vec::new(alloc);
    for line in lines {
        less.push(line.less(v))?;
    }
    Ok(less)
}

/// Returns the points of the lines that Breaker can't concede. It concedes the lightest first, as
/// long as the potential stays low enough.
fn kept_points(
    alloc: Global,
    arena: &Arena,
    spot: &Spot,
    live: &[SmallSet],
) -> Result<SmallSet, Memory> {
    let mut kept = SmallSet::empty();
    for line in live {
        kept = kept.union(*line);
    }
    let mut order = heaviest_first(alloc, &weigh(live, arena.longest), kept)?;
    order.reverse();
    let mut lines = live.to_vec(alloc)?;
    for weighed in &order {
        let next = lines_less(alloc, lines.as_slice(), weighed.point)?;
        if weigh(next.as_slice(), arena.longest).holds(arena.longest, spot.turn) {
            kept = kept.less(weighed.point);
            lines = next;
        }
    }
    Ok(kept)
}

/// Returns the pattern of Breaker's potential; `live` are the lines that Maker may still fill.
/// Breaker needs the points that it can't concede, and a few of its own that meet every other
/// line.
///
/// The potential is Erdős and Selfridge's (On a combinatorial game, 1973).
///
/// # Errors
///
/// `Memory` if an allocation fails.
pub fn potential_pattern(
    alloc: Global,
    arena: &Arena,
    spot: &Spot,
    live: &[SmallSet],
) -> Result<Pattern, Memory>
    ensures reason { IfOk result (λ pattern. pattern.reason ≡ Potential) }
    ensures claimer { IfOk result (λ pattern. pattern.claimer ≡ Y) }
    ensures moves { IfOk result (λ pattern. pattern.moves ≡ is_same_side spot.now.turn Y) }
{
    let dead = touched(alloc, arena.lines.as_slice(), spot.y)?;
    let held = hitting(alloc, dead.as_slice(), spot.y)?;
    let kept = kept_points(alloc, arena, spot, live)?;
    Ok(Pattern {
        held,
        zone: held.union(kept),
        claimer: Side::Y,
        moves: spot.turn.is_same(Side::Y),
        reason: Reason::Potential,
    })
}

/// Returns the line without a point of Y of which Maker lacks exactly the points `lacking`, and
/// which adds the fewest points to the zone. If Maker lacks none, the attack is on the line.
fn line_of_attack(
    arena: &Arena,
    y: SmallSet,
    mine: SmallSet,
    attack: u8,
    lacking: SmallSet,
    zone: SmallSet,
) -> SmallSet {
    let mut best = SmallSet::empty();
    let mut least = u32::MAX;
    for line in &arena.lines {
        let more = line.without(zone).len();
        if more < least
            && line.shares_none(y)
            && line.without(mine) == lacking
            && (!lacking.is_empty() || line.has(attack))
        {
            best = *line;
            least = more;
        }
    }
    best
}

/// Returns the pattern of Maker's threat line, whose points are attacks and replies in turn: Maker
/// needs the lines that its attacks are on.
pub fn threat_pattern(arena: &Arena, spot: &Spot, points: Vec<u8>) -> Pattern
    ensures reason { result.reason ≡ Threat points }
    ensures claimer { result.claimer ≡ X }
    ensures moves { result.moves ≡ true }
{
    let mut zone = SmallSet::empty();
    let mut mine = spot.x;
    for i in 0..points.len() {
        if i % 2 == 0 {
            let attack = points[i];
            let mut lacking = SmallSet::empty();
            if let Some(reply) = points.get(i + 1) {
                lacking = lacking.with(*reply);
            }
            mine = mine.with(attack);
            let line = line_of_attack(arena, spot.y, mine, attack, lacking, zone);
            zone = zone.union(line).union(lacking).with(attack);
        }
    }
    Pattern {
        held: zone.common(spot.x),
        zone,
        claimer: Side::X,
        moves: true,
        reason: Reason::Threat(points),
    }
}
