//! What the counts of a board tell of the positions after a move.
ghost use Rattle.std.specs.Prelude.{◌≡◌, ◌<◌, ◌+◌, ℕ, true, false, IfSome};
ghost use Rattle.pg_leaf.specs.Prelude.{Position, Score, Switching, after, defender};
ghost use Rattle.pg_leaf.specs.Prelude.{defends, is_over, IsQuestion, pairs_exist};
ghost use Rattle.pg_leaf.specs.Prelude.{breaker_of, point_count, points_of, Side};
ghost use Rattle.pg_base.specs.Side.{is_same_side};
ghost use Rattle.pg_board.specs.Board.{degree};
ghost use Rattle.pg_game.specs.Potential.{point_weight, total_weight};
ghost use Rattle.pg_game.specs.Threat.{is_race};
ghost use Rattle.pg_leaf.specs.Ahead.{base_for, is_avoiding, is_known, IsAhead, IsMoveOf};
ghost use Rattle.pg_leaf.specs.Ahead.{IsNext, IsTold, IsWeighed, with_next};

use crate::criteria::answer_for;
use pg_base::{Kind, Score, Side};
use pg_board::Board;
use pg_cert::Body;
use pg_game::{Position, breaker_of, defender, full_weight, may_attack, x_takes_last};
use pg_threat::{ThreatLine, forced_passed, is_apart};

/// What the lines weigh at a position, for the potential that speaks to a question.
#[derive(Debug, Drop)]
pub struct Ahead {
    /// The side that defends.
    pub defender: Side,
    /// The side whose points make a line harmless.
    pub breaker: Side,
    /// The base of the weights.
    pub base: u128,
    /// What the total must stay below.
    pub limit: u128,
    /// The sum of the weights of all lines.
    pub total: u128,
    /// What is known of the next side's threat lines after a move.
    pub next: Next,
}

/// What is known of the threat lines of the side that is to move after a move, with at most three
/// replies.
#[derive(Clone, Copy, Debug)]
pub enum Next {
    /// Nothing: none was sought yet.
    Unknown,
    /// It may not attack, or has none where the turn passes to it; so it has none after any move.
    Quiet,
    /// It has this one where the turn passes to it, the first of fewest replies.
    Line(ThreatLine),
}

/// What is told of the position after a move.
#[derive(Debug, Drop)]
pub enum Told {
    /// Nothing.
    Unsure,
    /// No criterion decides it.
    Open,
    /// The first criterion that applies decides it: the answer, and the body that shows it.
    Decided(bool, Body),
    /// The threat line of the side that is then to move does.
    Attack(ThreatLine),
}

/// The base of the weights in a game of the kind in which Y claims `bias` points a turn.
fn base_for(kind: Kind, bias: u8) -> u128
    ensures { result ≡ base_for kind bias }
{
    match kind {
        Kind::AvoiderEnforcer => 2,
        Kind::MakerBreaker | Kind::MakerMaker | Kind::Switching => 1 + u128::from(bias),
    }
}

/// Whether both sides win by filling a line in a game of the kind.
fn is_race(kind: Kind) -> bool
    ensures { result ≡ is_race kind }
{
    match kind {
        Kind::MakerMaker => true,
        Kind::MakerBreaker | Kind::AvoiderEnforcer | Kind::Switching => false,
    }
}

/// Whether a side avoids lines in a game of the kind.
fn is_avoiding(kind: Kind) -> bool
    ensures { result ≡ is_avoiding kind }
{
    match kind {
        Kind::AvoiderEnforcer => true,
        Kind::MakerBreaker | Kind::MakerMaker | Kind::Switching => false,
    }
}

/// What there is to know of the next side's threat lines: whether it may attack, and which it has
/// where the turn passes to it. The board is afterwards as before.
fn next_of(b: &mut Board<'_>) -> Next
    requires { is_over b.old.game b.old.stand.position ≡ false }
    ensures next { IsNext b.old result }
    ensures known { is_known result ≡ true }
    ensures kept { b.new ≡ b.old }
{
    if b.game().bias != 1 {
        return Next::Quiet;
    }
    if !may_attack(b.kind(), b.turn().other()) {
        return Next::Quiet;
    }
    match forced_passed(b, 3) {
        Some(line) => Next::Line(line),
        None => Next::Quiet,
    }
}

/// The sum of the weights of all lines at the board's position, where the points of the side make a
/// line harmless.
fn total_of(b: &Board<'_>, breaker: Side) -> u128
    ensures { (d : Side) → breaker ≡ breaker_of b.now.game.kind d
        → result ≡ total_weight (base_for b.now.game.kind b.now.game.bias) b.now.game
        (points_of b.now.stand.position breaker) b.now.stand.position }
{
    if is_avoiding(b.kind()) {
        return b.avoider_total();
    }
    b.total(breaker)
}

impl Ahead {
    /// What the lines weigh at the position at which the board stands, for the question.
    pub fn look(b: &Board<'_>, question: Score) -> Ahead
        ensures { IsAhead question b.now result }
    {
        let g = b.game();
        let side = defender(g.kind, question);
        let breaker = breaker_of(g.kind, side);
        let base = base_for(g.kind, g.bias);
        Ahead {
            defender: side,
            breaker,
            base,
            limit: full_weight(g, base),
            total: total_of(b, breaker),
            next: Next::Unknown,
        }
    }

    /// Seeks the next side's threat line where the turn passes to it: if there is none, there is
    /// none after any move, and else it is one after each move apart from it (`is_apart` of
    /// `pg_threat`).
    /// Only `next` changes. The board is afterwards as before; it takes no memory.
    pub fn seek(&mut self, b: &mut Board<'_>)
        requires { is_over b.old.game b.old.stand.position ≡ false }
        ensures ahead { (t : Score) → IsAhead t b.old self.old → IsAhead t b.old self.new }
        ensures known { is_known self.new.next ≡ true }
        ensures rest { self.new ≡ with_next self.old self.new.next }
        ensures kept { b.new ≡ b.old }
    {
        self.next = next_of(b);
    }

    /// The sum of the weights of the lines through the point.
    fn weight(&self, b: &Board<'_>, v: u16) -> u128
        requires weighed { IsWeighed b.now self.now }
        requires range { v < point_count b.now.game }
        ensures { result ≡ point_weight self.now.base b.now.game
            (points_of b.now.stand.position self.now.breaker) b.now.stand.position v }
    {
        if is_avoiding(b.kind()) {
            return b.avoider_weight(v);
        }
        b.weight(self.breaker, v)
    }

    /// The total after a move to the point.
    fn total_after(&self, b: &Board<'_>, v: u16) -> u128
        requires weighed { IsWeighed b.now self.now }
        requires moves { (q : Position) × IsMoveOf b.now q v }
        ensures { (q : Position) → IsMoveOf b.now q v
            → result ≡ total_weight self.now.base b.now.game (points_of q self.now.breaker) q }
    {
        let weight = self.weight(b, v);
        if self.breaker.is_same(b.turn()) {
            self.total - weight
        } else {
            self.total + (self.base - 1) * weight
        }
    }

    /// Whether the counts show that the game goes on after a move that leads to this total.
    fn goes_on(&self, b: &Board<'_>, total: u128) -> bool
        ensures { (t : Score) → (q : Position) → (v : ℕ) → IsAhead t b.now self.now
            → IsMoveOf b.now q v
            → total ≡ total_weight self.now.base b.now.game (points_of q self.now.breaker) q
            → result ≡ true
            → is_over b.now.game q ≡ false }
    {
        if b.free_count() < 2 {
            return false;
        }
        if total == 0 {
            return false;
        }
        if !is_race(b.kind()) {
            if total < self.limit {
                return true;
            }
            if Side::Y.is_same(b.turn()) {
                return true;
            }
        }
        b.live_with(b.turn().other(), 1) == 0
    }

    /// Whether the potential holds after a move that leads to this total, and None where that takes
    /// the weights of points there. No point weighs more than all lines, so it holds if the total
    /// is low enough for that.
    fn holds(&self, b: &Board<'_>, q: &Position, total: u128) -> Option<bool>
        requires weighed { IsWeighed b.now self.now }
        requires moves { (v : ℕ) × IsMoveOf b.now q.now v }
        requires total { total
            ≡ total_weight self.now.base b.now.game (points_of q.now self.now.breaker) q.now }
        ensures { (t : Score) → self.now.defender ≡ defender b.now.game.kind t
            → IfSome result (λ r. r ≡ defends b.now.game.kind b.now.game t q.now) }
    {
        if total >= self.limit {
            return Some(false);
        }
        let bias = b.game().bias;
        if is_avoiding(b.kind()) {
            let free = b.free_count() - 1;
            if x_takes_last(u16::from(bias), q.turn, u16::from(q.left), free) {
                return Some(2 * total < self.limit);
            }
            return Some(true);
        }
        if q.turn.is_same(self.breaker) {
            if q.left == bias {
                return Some(true);
            }
        }
        let most = self.base * total;
        if most < self.limit {
            return Some(true);
        }
        None
    }

    /// At most how many lines the move takes from those without a point of the side that breaks
    /// lines.
    fn lost(&self, b: &Board<'_>, v: u16) -> usize
        requires { v < point_count b.now.game }
        ensures { is_same_side self.now.breaker b.now.stand.position.turn ≡ true
            → result ≡ degree b.now.game v }
    {
        if self.breaker.is_same(b.turn()) {
            return b.through(v).len();
        }
        0
    }

    /// Whether the board's counts show that after the move not each of the lines meant can have two
    /// free points of its own: there are too many lines for the free points.
    fn is_short(&self, b: &Board<'_>, v: u16) -> bool
        requires weighed { IsWeighed b.now self.now }
        requires range { v < point_count b.now.game }
        ensures { (q : Position) → IsMoveOf b.now q v → result ≡ true
            → pairs_exist b.now.game q self.now.defender ≡ false }
    {
        let lines = b.live_count(self.breaker) as usize;
        let lost = self.lost(b, v);
        if lines < lost {
            return false;
        }
        2 * (lines - lost) >= usize::from(b.free_count())
    }

    /// What the weights and the board's counts tell of the position after a move to the point,
    /// without a play.
    pub fn tells(&self, b: &Board<'_>, q: &Position, v: u16) -> Told
        requires moves { IsMoveOf b.now q.now v }
        requires weighed { IsWeighed b.now self.now }
        ensures { (t : Score) → IsQuestion b.now.game.kind t → IsAhead t b.now self.now
            → IsTold b.now.game t q.now result }
    {
        let total = self.total_after(b, v);
        if !self.goes_on(b, total) {
            return Told::Unsure;
        }
        let Some(holds) = self.holds(b, q, total) else {
            return Told::Unsure;
        };
        if holds {
            return Told::Decided(answer_for(self.defender), Body::Potential);
        }
        match self.next {
            Next::Unknown => {}
            Next::Quiet => {
                if self.is_short(b, v) {
                    return Told::Open;
                }
            }
            Next::Line(line) => {
                if is_apart(b, &line, v) {
                    return Told::Attack(line);
                }
            }
        }
        Told::Unsure
    }
}
