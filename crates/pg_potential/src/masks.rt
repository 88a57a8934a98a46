//! The lines of a game as sets, which are tested many points at a time.
ghost use Rattle.std.specs.Prelude.{◌≡◌, ◌≢◌, ◌-◌, ◌^◌, ◌<◌, ◌≤◌, List, ℕ, Some, None, IfOk};
ghost use Rattle.std.specs.Prelude.{if◌then◌else◌};
ghost use Rattle.pg_potential.specs.Prelude.{All, Switching, is_filled, is_full, is_over};
ghost use Rattle.pg_potential.specs.Prelude.{is_touched, lines_of, list_all, list_any, outcome};
ghost use Rattle.pg_game.specs.Judge.{filling_result, race_result};
ghost use Rattle.pg_potential.specs.Masks.{AreMasks, AreMasksOf, IsWeighing, clear_weight, set_of};

use pg_base::{Kind, Line, MAX_MEMBERS, Memory, PointSet, Score};
use pg_game::{Game, MAX_LINE_POINTS, Position, greatest_length};
use std::alloc::Global;

/// A line with the set of its points.
#[derive(Debug, Drop)]
pub struct Mask {
    /// The set.
    pub(crate) points: PointSet,
    /// The points in ascending order.
    pub(crate) line: Vec<u16>,
    /// What the line weighs for Breaker while it has no mark.
    pub(crate) clear: u128,
}

/// The base to the power of the exponent.
pub(crate) fn power(base: u128, exponent: usize) -> u128
    requires some { 1 ≤ base }
    requires few { exponent ≤ MAX_LINE_POINTS }
    requires fits { base ^ exponent ≤ 2 ^ MAX_LINE_POINTS }
    ensures { result ≡ base ^ exponent }
{
    if base == 2 {
        1 << exponent
    } else {
        base.pow(exponent as u32)
    }
}

/// What a line with so many free points weighs.
pub(crate) fn weight_with(base: u128, longest: usize, free: usize) -> u128
    requires { IsWeighing base longest }
    ensures { result ≡ base ^ (longest - free) }
{
    power(base, longest.saturating_sub(free))
}

/// The mask of a line.
fn mask_of(alloc: Global, base: u128, longest: usize, line: &Line) -> Result<Mask, Memory>
    requires range { All (λ v. v < MAX_MEMBERS) line.now }
    requires weighing { IsWeighing base longest }
    ensures points { IfOk result (λ mask. mask.points ≡ set_of line.now) }
    ensures line { IfOk result (λ mask. mask.line.items ≡ line.now) }
    ensures clear { IfOk result (λ mask. mask.clear ≡ clear_weight base longest line.now) }
{
    let points = PointSet::from_points(line.as_slice());
    let clear = weight_with(base, longest, line.len());
    let line = line.as_slice().to_vec(alloc)?;
    Ok(Mask {
        points,
        line,
        clear,
    })
}

/// The masks of the game's lines, in their order.
pub fn masks_of(alloc: Global, g: &Game) -> Result<Vec<Mask>, Memory>
    ensures { IfOk result (λ masks. AreMasksOf g.now masks.items) }
{
    let lines = g.lines();
    let base = 1 + u128::from(g.bias);
    let longest = greatest_length(lines);
    let mut masks = Vec::with_capacity(alloc, lines.len())?;
    for line in lines {
        masks.push(mask_of(alloc, base, longest, line)?)?;
    }
    Ok(masks)
}

/// Whether the set has all points of some line.
fn fill_some(masks: &[Mask], points: &PointSet) -> bool
    ensures { (lines : List (List ℕ)) → AreMasks lines masks.now
        → result ≡ list_any (is_filled points.now) lines }
{
    for mask in masks {
        if mask.points.is_subset(points) {
            return true;
        }
    }
    false
}

/// Whether the set has a point of each line.
fn touch_all(masks: &[Mask], points: &PointSet) -> bool
    ensures { (lines : List (List ℕ)) → AreMasks lines masks.now
        → result ≡ list_all (is_touched points.now) lines }
{
    for mask in masks {
        if mask.points.shares_none(points) {
            return false;
        }
    }
    true
}

/// The result where X's line counts: `filled` where X has filled one, and `unfilled` where it has
/// filled none and can't any more, because each line has a point of Y or no point is free.
fn filling_result(
    masks: &[Mask],
    g: &Game,
    p: &Position,
    filled: Score,
    unfilled: Score,
) -> Option<Score>
    requires { AreMasks (lines_of g.now) masks.now }
    ensures { result
        ≡ filling_result filled unfilled (list_any (is_filled p.now.x) (lines_of g.now))
        (list_all (is_touched p.now.y) (lines_of g.now)) (is_full g.now p.now) }
{
    if fill_some(masks, &p.x) {
        return Some(filled);
    }
    if touch_all(masks, &p.y) {
        return Some(unfilled);
    }
    if g.is_full(p) { Some(unfilled) } else { None }
}

/// The result where the side that fills a line first wins. Where both have, X's line is looked at
/// first.
fn race_result(masks: &[Mask], g: &Game, p: &Position) -> Option<Score>
    requires { AreMasks (lines_of g.now) masks.now }
    ensures { result ≡ race_result (list_any (is_filled p.now.x) (lines_of g.now))
        (list_any (is_filled p.now.y) (lines_of g.now)) (is_full g.now p.now) }
{
    if fill_some(masks, &p.x) {
        return Some(Score::XWins);
    }
    if fill_some(masks, &p.y) {
        return Some(Score::YWins);
    }
    if g.is_full(p) {
        Some(Score::Draw)
    } else {
        None
    }
}

/// The outcome of a position of a game on lines, and None where it isn't over.
pub fn line_result(masks: &[Mask], g: &Game, p: &Position) -> Option<Score>
    requires lines { g.now.kind ≢ Switching }
    requires masks { AreMasksOf g.now masks.now }
    ensures { result ≡ (if is_over g.now p.now then Some (outcome g.now p.now) else None) }
{
    match g.kind {
        Kind::MakerBreaker => filling_result(masks, g, p, Score::XWins, Score::YWins),
        Kind::AvoiderEnforcer => filling_result(masks, g, p, Score::YWins, Score::XWins),
        Kind::MakerMaker => race_result(masks, g, p),
        Kind::Switching => unreachable!(),
    }
}
