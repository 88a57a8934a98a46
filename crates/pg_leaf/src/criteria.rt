//! The criteria that decide a position without search.
ghost use Rattle.std.specs.Prelude.{◌≡◌, ◌<◌, Some, IfOk, IfSome, true, false, option_map};
ghost use Rattle.std.specs.Prelude.{is_some, None};
ghost use Rattle.pg_leaf.specs.Prelude.{lines_of, is_over, decided, answer_for, attack_wins};
ghost use Rattle.pg_leaf.specs.Prelude.{Threat, pairs_exist};
ghost use Rattle.pg_leaf.specs.Ahead.{IsForetold, IsKnownAt, IsKnownLine};
ghost use Rattle.pg_leaf.specs.At.{IsAskedAt, IsAt};
ghost use Rattle.pg_match.specs.Cache.{Fits};
ghost use Rattle.pg_threat.specs.Search.{points_of_line};
ghost use Rattle.pg_leaf.specs.Leaf.{IsLeaf, IsAttackLine};

use crate::ahead::Next;
use pg_base::{Memory, Pairs, Points, Score, Side};
use pg_board::Board;
use pg_cert::Body;
use pg_game::{Game, Position, breaker_of, defender, may_attack};
use pg_match::{PairCache, pairs_leaf};
use pg_threat::{ThreatLine, forced, forced_after};
use std::alloc::Global;

/// The answer that a side's criterion gives: yes for X.
pub(crate) fn answer_for(side: Side) -> bool
    ensures { result ≡ answer_for side }
{
    match side {
        Side::X => true,
        Side::Y => false,
    }
}

/// The points of the line.
fn points_of(alloc: Global, line: &ThreatLine) -> Result<Vec<u16>, Memory>
    ensures { IfOk result (λ points. points.items ≡ points_of_line line.now) }
{
    let points = line.as_slice().to_vec(alloc)?;
    Ok(points)
}

/// The leaf that a threat line of the side to move gives the position: the answer, yes for X, and
/// the body with the line's points.
///
/// # Errors
///
/// `Memory` where no memory is found.
pub fn attack_leaf(
    alloc: Global,
    p: &Position,
    line: &ThreatLine,
) -> Result<Option<(bool, Body)>, Memory>
    ensures { IfOk result
        (λ r. r ≡ Some (answer_for p.now.turn, Threat (points_of_line line.now))) }
{
    let points = points_of(alloc, line)?;
    let body = Body::Threat(Points::from_vec(points));
    Ok(Some((answer_for(p.turn), body)))
}

/// The points of the shortest threat line of the side to move, where one forces at most three
/// replies.
fn attack(alloc: Global, b: &mut Board<'_>) -> Result<Option<Vec<u16>>, Memory>
    requires going { is_over b.old.game b.old.stand.position ≡ false }
    ensures kept { b.new ≡ b.old }
    ensures found { IfOk result (λ r. is_some r ≡ attack_wins b.old.game b.old.stand.position) }
    ensures line { IfOk result
        (λ r. IfSome r (λ points. IsAttackLine b.old.game b.old.stand.position points.items)) }
{
    let turn = b.turn();
    if !may_attack(b.kind(), turn) {
        return Ok(None);
    }
    if b.game().bias != 1 {
        return Ok(None);
    }
    match forced(b, turn, 3) {
        Some(line) => Ok(Some(points_of(alloc, &line)?)),
        None => Ok(None),
    }
}

/// Like [`attack`], where a line is known before which none of its threat lines comes.
fn attack_after(
    alloc: Global,
    b: &mut Board<'_>,
    line: &ThreatLine,
) -> Result<Option<Vec<u16>>, Memory>
    requires going { is_over b.old.game b.old.stand.position ≡ false }
    requires known { IsKnownLine b.old.game b.old.stand.position line.now }
    ensures kept { b.new ≡ b.old }
    ensures found { IfOk result (λ r. is_some r ≡ attack_wins b.old.game b.old.stand.position) }
    ensures line { IfOk result
        (λ r. IfSome r (λ points. IsAttackLine b.old.game b.old.stand.position points.items)) }
{
    let turn = b.turn();
    match forced_after(b, turn, line) {
        Some(found) => Ok(Some(points_of(alloc, &found)?)),
        None => Ok(None),
    }
}

/// Like [`attack`], where `next` is known of its threat lines.
fn attack_with(alloc: Global, b: &mut Board<'_>, next: &Next) -> Result<Option<Vec<u16>>, Memory>
    requires going { is_over b.old.game b.old.stand.position ≡ false }
    requires known { IsKnownAt b.old.game b.old.stand.position next.now }
    ensures kept { b.new ≡ b.old }
    ensures found { IfOk result (λ r. is_some r ≡ attack_wins b.old.game b.old.stand.position) }
    ensures line { IfOk result
        (λ r. IfSome r (λ points. IsAttackLine b.old.game b.old.stand.position points.items)) }
{
    match next {
        Next::Unknown => attack(alloc, b),
        Next::Quiet => Ok(None),
        Next::Line(line) => attack_after(alloc, b, line),
    }
}

/// Whether the board's counts show that not each of the lines meant can have two free points of its
/// own: there are too many lines for the free points, or one line has fewer than two.
fn is_short(b: &Board<'_>, side: Side) -> bool
    ensures { result ≡ true → pairs_exist b.now.game b.now.stand.position side ≡ false }
{
    let breaker = breaker_of(b.kind(), side);
    if b.live_count(breaker) > u32::from(b.free_count()) / 2 {
        return true;
    }
    if b.live_with(breaker, 0) > 0 {
        return true;
    }
    b.live_with(breaker, 1) > 0
}

/// Whether X reaches the score from the position, and the leaf that shows it, by the first
/// criterion that applies; None where none does. No move is looked at but those of threat lines.
///
/// 1. The game is over: the answer is its outcome's (`Over`).
/// 2. A potential holds for the side that defends, `defender` of `pg_game`: Erdős and Selfridge's
///    (1973) or, with bias, Beck's (1982); in Avoider-Enforcer that of Hefetz, Krivelevich,
///    Stojaković and Szabó (2014). The answer is yes exactly where the defender is X (`Potential`).
/// 3. The side to move has a threat line (Allis, van den Herik and Huntjens, 1993) of three replies
///    at most. The answer is yes exactly where that side is X, and the leaf has the points of such
///    a line, one of fewest replies (`Threat`).
/// 4. Private pairs exist for the defender, two free points for each line meant (Hales and Jewett,
///    1963). The answer is yes exactly where the defender is X, and in Avoider-Enforcer the other
///    free points are paired too (`Pairs`).
///
/// The board stands at the position, and does so afterwards: threat lines are played on it and
/// taken back. Its counts tell the first two criteria, where no threat line can be, and where pairs
/// can't; only then the cache is asked. It fits the lines afterwards, want of memory included.
///
/// What comes with an answer (`IsLeaf`) shows it at this position in any claim of the side that the
/// answer is for, wherever the node stands, since it names no other; and it is by the first
/// criterion that applies. Which line and which pairs it has, where several would do, and that the
/// cache was asked, no clause tells.
///
/// # Errors
///
/// `Memory` where no memory is found, for a threat line's points or for pairs.
pub fn leaf(
    alloc: Global,
    g: &Game,
    question: Score,
    p: &Position,
    b: &mut Board<'_>,
    cache: &mut PairCache,
) -> Result<Option<(bool, Body)>, Memory>
    requires asked { IsAskedAt g.now question p.now }
    requires stands { IsAt g.now p.now b.old }
    requires fits { Fits cache.old (lines_of g.now) }
    ensures kept { b.new ≡ b.old }
    ensures fits { Fits cache.new (lines_of g.now) }
    ensures decided { IfOk result (λ r. option_map (λ k. k.0) r ≡ decided g.now question p.now) }
    ensures body { IfOk result (λ r. IfSome r (λ k. IsLeaf g.now question p.now k.0 k.1)) }
{
    leaf_with(alloc, g, question, p, b, cache, &Next::Unknown)
}

/// Like [`leaf`], where `next` is known of the threat lines of the side to move: that it has none,
/// or that none comes before a line.
///
/// # Errors
///
/// `Memory` where no memory is found, for a threat line's points or for pairs.
pub fn leaf_with(
    alloc: Global,
    g: &Game,
    question: Score,
    p: &Position,
    b: &mut Board<'_>,
    cache: &mut PairCache,
    next: &Next,
) -> Result<Option<(bool, Body)>, Memory>
    requires asked { IsAskedAt g.now question p.now }
    requires stands { IsForetold g.now p.now b.old next.now }
    requires fits { Fits cache.old (lines_of g.now) }
    ensures kept { b.new ≡ b.old }
    ensures fits { Fits cache.new (lines_of g.now) }
    ensures decided { IfOk result (λ r. option_map (λ k. k.0) r ≡ decided g.now question p.now) }
    ensures body { IfOk result (λ r. IfSome r (λ k. IsLeaf g.now question p.now k.0 k.1)) }
{
    if let Some(answer) = b.by_end(question) {
        return Ok(Some((answer, Body::Over)));
    }
    let side = defender(g.kind, question);
    if b.defends(question) {
        return Ok(Some((answer_for(side), Body::Potential)));
    }
    if let Some(points) = attack_with(alloc, b, next)? {
        return Ok(Some((answer_for(p.turn), Body::Threat(Points::from_vec(points)))));
    }
    if is_short(b, side) {
        return Ok(None);
    }
    match pairs_leaf(alloc, g, p, side, cache)? {
        Some(pairs) => Ok(Some((answer_for(side), Body::Pairs(Pairs::from_vec(pairs))))),
        None => Ok(None),
    }
}
