//! Long threat lines, by passes over the lines of the game. An attack and its reply are a round.
ghost use Rattle.std.specs.Prelude.{◌≡◌, ◌<◌, ◌≤◌, ◌↔◌, ◌/◌, ◌+◌, ◌==◌, ◌||◌, ℕ, true, false};
ghost use Rattle.std.specs.Prelude.{IsTrue, IfSome, IfNone, nat_le, length, get_or};
ghost use Rattle.pg_check.specs.Prelude.{All, list_all, MakerMaker, has_filled, LeadsToLine};
ghost use Rattle.pg_check.specs.Rounds.{before_round, attacked, taken_at, AreRounds, AreTimes};
ghost use Rattle.pg_check.specs.Rounds.{AreForced, LacksLate, IsClear, IsAtMove};

use crate::threats::{has_filled, is_attack, is_filling, only_lacked, threatens};
use pg_base::{Kind, Line, MAX_MEMBERS, PointSet, Side};
use pg_game::{Game, Position};

/// A number for each point that a set can hold.
type Table = [usize; MAX_MEMBERS as usize];

/// Plays the rounds of the list, and returns the position after them. In `times` it puts, for each
/// point that is taken, the number of rounds after which it is taken. Returns `None` exactly if one
/// of the points isn't free, or isn't a point of the game.
fn walk(g: &Game, p: &Position, points: &[u16], times: &mut Table) -> Option<Position>
    requires zero { (q : ℕ) → get_or times.old q 0 ≡ 0 }
    ensures last { IfSome result (λ last.
        last ≡ before_round g.now p.now points.now (length points.now / 2)) }
    ensures rounds { IfSome result (λ _. AreRounds g.now p.now points.now (length points.now / 2)) }
    ensures times { IfSome result (λ _.
        AreTimes g.now p.now points.now (length points.now / 2) times.new) }
    ensures none { IfNone result (AreRounds g.now p.now points.now (length points.now / 2) → ⊥) }
{
    let mut last = *p;
    for i in 0..points.len() / 2 {
        let (v, u) = (points[2 * i], points[2 * i + 1]);
        if !is_attack(g, &last, v) {
            return None;
        }
        let attacked = g.after(&last, v);
        if !is_attack(g, &attacked, u) {
            return None;
        }
        last = g.after(&attacked, u);
        times[usize::from(v)] = i + 1;
        times[usize::from(u)] = i + 1;
    }
    Some(last)
}

/// Whether each point of the line but perhaps `left_out` has at most that number.
fn are_at_most(times: &Table, left_out: u16, most: usize, line: &Line) -> bool
    requires { All (λ v. v < MAX_MEMBERS) line.now }
    ensures { result
        ≡ list_all (λ q. q == left_out || nat_le (get_or times.now q 0) most) line.now }
{
    line.as_slice()
        .iter()
        .all(|q| *q == left_out || times[usize::from(*q)] <= most)
}

/// The number of the point if the set has it, and else `end`.
fn number_or(times: &Table, set: &PointSet, v: u16, end: usize) -> usize
    requires { v < MAX_MEMBERS }
    ensures { result ≡ taken_at set.now times.now end v }
{
    if set.has(v) {
        times[usize::from(v)]
    } else {
        end
    }
}

/// Whether the set `theirs` lacks just one point of the line, and had all others two rounds before
/// `mine` took that point. A point that neither set has counts as taken in round `end`.
fn lacks_late(mine: &PointSet, theirs: &PointSet, times: &Table, end: usize, line: &Line) -> bool
    requires { All (λ v. v < MAX_MEMBERS) line.now }
    ensures { IsTrue result ↔ LacksLate mine.now theirs.now times.now end line.now }
{
    let Some(w) = only_lacked(theirs, line) else {
        return false;
    };
    let taken = number_or(times, mine, w, end);
    if taken < 2 {
        return false;
    }
    are_at_most(times, w, taken - 2, line)
}

/// Whether the other side has filled no line at the end, and had no threat after any attack.
fn is_clear(g: &Game, side: Side, last: &Position, times: &Table, end: usize) -> bool
    ensures { IsTrue result ↔ IsClear g.now side last.now times.now end }
{
    if has_filled(g, last, side.other()) {
        return false;
    }
    let (mine, theirs) = (last.points_of(side), last.points_of(side.other()));
    for line in g.lines() {
        if lacks_late(mine, theirs, times, end, line) {
            return false;
        }
    }
    true
}

/// Whether no attack is forbidden by a threat of the other side, which only counts in Maker-Maker.
fn leaves_no_threat(g: &Game, side: Side, last: &Position, times: &Table, end: usize) -> bool
    ensures { IsTrue result
        ↔ (g.now.kind ≡ MakerMaker → IsClear g.now side last.now times.now end) }
{
    if g.kind != Kind::MakerMaker {
        return true;
    }
    is_clear(g, side, last, times, end)
}

/// Returns, for the reply of each round, the number of a line that lacks only it after the attack,
/// if there is one. What it returns only says which line is tried first.
fn lines_lacking(g: &Game, own: &PointSet, times: &Table) -> Table {
    let mut numbers = [0; MAX_MEMBERS as usize];
    for (k, line) in g.lines().iter().enumerate() {
        if let Some(u) = only_lacked(own, line) {
            if are_at_most(times, u, times[usize::from(u)], line) {
                numbers[usize::from(u)] = k;
            }
        }
    }
    numbers
}

/// Whether each attack of the rounds forces its reply.
fn are_forced(
    g: &Game,
    p: &Position,
    side: Side,
    points: &[u16],
    last: &Position,
    times: &Table,
) -> bool
    requires rounds { AreRounds g.now p.now points.now (length points.now / 2) }
    requires unfilled { (i : ℕ) → i < length points.now / 2
        → has_filled g.now (attacked g.now p.now points.now i) side ≡ false }
    ensures { IsTrue result ↔ AreForced g.now p.now points.now (length points.now / 2) side }
{
    let numbers = lines_lacking(g, last.points_of(side), times);
    let mut before = *p;
    for i in 0..points.len() / 2 {
        let (v, u) = (points[2 * i], points[2 * i + 1]);
        if !is_attack(g, &before, v) {
            return false;
        }
        let attacked = g.after(&before, v);
        let number = if u < MAX_MEMBERS {
            numbers[usize::from(u)]
        } else {
            0
        };
        if !threatens(g, &attacked, side, u, number) {
            return false;
        }
        before = g.after(&attacked, u);
    }
    true
}

/// Whether the list of at least two points leads to a filled line.
pub(crate) fn rounds_lead(g: &Game, p: &Position, side: Side, points: &[u16]) -> bool
    requires ready { IsAtMove g.now p.now side }
    requires long { 2 ≤ length points.now }
    ensures { IsTrue result ↔ LeadsToLine g.now p.now side points.now }
{
    if points.len() % 2 == 0 {
        return false;
    }
    let mut times = [0; MAX_MEMBERS as usize];
    let Some(last) = walk(g, p, points, &mut times) else {
        return false;
    };
    if has_filled(g, &last, side) {
        return false;
    }
    if !is_filling(g, &last, side, points[points.len() - 1]) {
        return false;
    }
    if !leaves_no_threat(g, side, &last, &times, points.len() / 2 + 1) {
        return false;
    }
    are_forced(g, p, side, points, &last, &times)
}
