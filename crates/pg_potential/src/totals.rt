//! The potential of Breaker, by lines with their sets: a line without marks is weighed by its
//! length alone.
ghost use Rattle.std.specs.Prelude.{◌≡◌, ◌≢◌, ◌*◌, ◌^◌, ◌<◌, ◌≤◌, ◌↔◌, ℕ, IsTrue, get_or, length};
ghost use Rattle.std.specs.Prelude.{not};
ghost use Rattle.pg_potential.specs.Prelude.{All, AreBelow, IsPosition, PotentialHolds, ShareNone};
ghost use Rattle.pg_potential.specs.Prelude.{Switching, contains, count_by, greatest_length};
ghost use Rattle.pg_potential.specs.Prelude.{line_weight, lines_of, members_below, points_of};
ghost use Rattle.pg_potential.specs.Prelude.{total};
ghost use Rattle.pg_potential.specs.Masks.{AreMarked, AreMasksOf, IsMask, IsWeighing};

use crate::condition::is_low;
use crate::masks::{Mask, power, weight_with};
use pg_base::{MAX_MEMBERS, PointSet, Side};
use pg_game::{Game, Position, greatest_length};

/// Whether no bit of so many words is in the other words.
fn are_apart(mine: &[u64], theirs: &[u64], count: usize) -> bool
    requires mine { count ≤ length mine.now }
    requires theirs { count ≤ length theirs.now }
    requires fit { (i : ℕ) → (get_or mine.now i 0 < 2 ^ 64) × (get_or theirs.now i 0 < 2 ^ 64) }
    ensures { IsTrue result
        ↔ ShareNone (members_below mine.now (64 * count)) (members_below theirs.now (64 * count)) }
{
    for i in 0..count {
        if mine[i] & theirs[i] != 0 {
            return false;
        }
    }
    true
}

/// Whether the sets, whose points so many words hold, have no point in common.
fn share_none(width: usize, first: &PointSet, second: &PointSet) -> bool
    requires width { width ≤ 16 }
    requires first { AreBelow first.now (64 * width) }
    requires second { AreBelow second.now (64 * width) }
    ensures { IsTrue result ↔ ShareNone first.now second.now }
{
    are_apart(first.words(), second.words(), width)
}

/// How many points of the line have no mark.
fn count_free(marked: &PointSet, line: &[u16]) -> usize
    requires { All (λ v. v < MAX_MEMBERS) line.now }
    ensures { result ≡ count_by (λ v. not (contains marked.now v)) line.now }
{
    let mut free = 0;
    for v in line {
        if !marked.has(*v) {
            free += 1;
        }
    }
    free
}

/// What the line of the mask weighs, at once where it has no mark of either side.
fn weight_by_mask(
    width: usize,
    base: u128,
    longest: usize,
    mask: &Mask,
    marked: &PointSet,
    p: &Position,
    side: Side,
) -> u128
    requires width { width ≤ 16 }
    requires weighing { IsWeighing base longest }
    requires mask { IsMask base longest width mask.now }
    requires room { AreBelow marked.now (64 * width) }
    requires marked { AreMarked marked.now p.now }
    ensures { result ≡ line_weight base longest (points_of p.now side) p.now mask.now.line.items }
{
    if share_none(width, &mask.points, marked) {
        return mask.clear;
    }
    if !share_none(width, &mask.points, p.points_of(side)) {
        return 0;
    }
    weight_with(base, longest, count_free(marked, &mask.line))
}

/// The sum of the weights of the lines without a point of the side.
fn total_by_masks(masks: &[Mask], g: &Game, longest: usize, p: &Position, side: Side) -> u128
    requires masks { AreMasksOf g.now masks.now }
    requires longest { longest ≡ greatest_length (lines_of g.now) }
    requires position { IsPosition g.now p.now }
    ensures total { result ≡ total g.now p.now side }
    ensures few { result ≤ 2 ^ 115 }
{
    let width = (usize::from(g.points()) + 63) / 64;
    let marked = p.x.union(&p.y);
    let base = 1 + u128::from(g.bias);
    let mut total = 0;
    for mask in masks {
        total += weight_by_mask(width, base, longest, mask, &marked, p, side);
    }
    total
}

/// Whether the potential is low enough for the side, exactly as `holds` says. The total is summed
/// by the masks of the game's lines: one without marks weighs what its length says.
pub fn holds_by_masks(masks: &[Mask], g: &Game, p: &Position, side: Side) -> bool
    requires lines { g.now.kind ≢ Switching }
    requires masks { AreMasksOf g.now masks.now }
    requires position { IsPosition g.now p.now }
    ensures { IsTrue result ↔ PotentialHolds g.now p.now side }
{
    let longest = greatest_length(g.lines());
    let sum = total_by_masks(masks, g, longest, p, side);
    let most = power(1 + u128::from(g.bias), longest);
    is_low(g, p, side, sum, most)
}
