//! The search for a threat line.
ghost use Rattle.std.specs.Prelude.{◌≡◌, ◌≤◌, ◌<◌, ◌↔◌, ℕ, true, false, length, ◌==◌, ◌&&◌};
ghost use Rattle.std.specs.Prelude.{if◌then◌else◌, ◌/◌, get_or};
ghost use Rattle.pg_threat.specs.Prelude.{contains, after, is_over, lines_of, IsPosition, other};
ghost use Rattle.pg_threat.specs.Prelude.{passed};
ghost use Rattle.pg_threat.specs.Prelude.{may_attack, IsAttack, LeadsToLine, IsAttacking};
ghost use Rattle.pg_threat.specs.Prelude.{IsLeastFrom};
ghost use Rattle.pg_threat.specs.Forced.{IsAnswer};
ghost use Rattle.pg_threat.specs.Lacking.{is_lacking, is_partner, IsLackedTwice};
ghost use Rattle.pg_threat.specs.Search.{Begins, IsAnswering, IsFound, IsTried, Replied};
ghost use Rattle.pg_threat.specs.Search.{SearchesAt};
ghost use Rattle.pg_threat.specs.Serving.{IsBound};

use crate::lacking::{gains, is_far, is_idle, lacking, partners};
use crate::line::ThreatLine;
use pg_base::{Kind, MAX_MEMBERS, PointSet, Side};
use pg_board::Board;

/// The attacks that are tried at a position.
#[derive(Clone, Copy, Debug)]
struct Attacks {
    /// All of them.
    all: PointSet,
    /// At least those that may leave two points to fill a line with.
    forks: PointSet,
}

impl Attacks {
    /// Those that may begin a list of that depth.
    fn of_depth(&self, depth: u8) -> &PointSet
        ensures { result.now ≡ (if depth == 1 then self.now.forks else self.now.all) }
    {
        if depth == 1 { &self.forks } else { &self.all }
    }

    /// Those that may begin a list of that depth, where no list comes before the line.
    fn of_depth_after(&self, depth: u8, line: &ThreatLine) -> PointSet
        requires { (v : ℕ) → contains self.now.forks v ≡ true → contains self.now.all v ≡ true }
        ensures all { (v : ℕ) → contains result v ≡ true → contains self.now.all v ≡ true }
        ensures late { (v : ℕ)
            → contains (if depth == 1 then self.now.forks else self.now.all) v ≡ true
            → (depth ≡ line.now.len / 2 → get_or line.now.points 0 0 ≤ v)
            → contains result v ≡ true }
    {
        let attacks = self.of_depth(depth);
        if depth == line.len / 2 {
            return from_point(attacks, line.points[0]);
        }
        *attacks
    }
}

/// The points of the set from one on.
fn from_point(points: &PointSet, first: u16) -> PointSet
    ensures points { (v : ℕ) → contains result v ≡ true → contains points.now v ≡ true }
    ensures late { (v : ℕ) → contains points.now v ≡ true → first ≤ v
        → contains result v ≡ true }
{
    points.without(&PointSet::all_below(first.min(MAX_MEMBERS)))
}

/// What is in both sets.
fn both(one: &PointSet, other: &PointSet) -> PointSet
    ensures { (v : ℕ) → contains result v ≡ (contains one.now v && contains other.now v) }
{
    one.without(&one.without(other))
}

/// The point alone, where it is an attack and the only threat.
fn sole(attacks: &PointSet, threats: &PointSet, v: u16) -> PointSet
    requires range { v < MAX_MEMBERS }
    requires least { IsLeastFrom threats.now 0 v }
    ensures { (w : ℕ) → contains result w ≡ true
        ↔ ((contains attacks.now w ≡ true) × ((u : ℕ) → contains threats.now u ≡ true → u ≡ w)) }
{
    let mut points = PointSet::empty();
    if !attacks.has(v) {
        return points;
    }
    if threats.first_from(v + 1).is_some() {
        return points;
    }
    points.put(v);
    points
}

/// The attacks that are tried where the side lacks more than one point of each line: the points of
/// lines of which it lacks two. In Maker-Maker an attack must also meet each threat of the other
/// side, so that there is at most one where there is a threat, and none where there are two.
fn tried(b: &Board<'_>, side: Side, attacks: PointSet) -> PointSet
    requires { (v : ℕ) → contains attacks v ≡ is_lacking b.now.game b.now.stand.position side 2 v }
    ensures { (v : ℕ) → contains result v ≡ true ↔ IsTried b.now.game b.now.stand.position side v }
{
    let Some(_) = attacks.first_from(0) else {
        return attacks;
    };
    if b.kind() != Kind::MakerMaker {
        return attacks;
    }
    let threats = lacking(b, side.other(), 1).points;
    match threats.first_from(0) {
        Some(v) => sole(&attacks, &threats, v),
        None => attacks,
    }
}

/// The attacks that are tried, and among them those on two such lines: only they can leave two
/// points to fill a line with.
fn attacks_at(b: &Board<'_>, side: Side) -> Attacks
    ensures all { (v : ℕ)
        → contains result.all v ≡ true ↔ IsTried b.now.game b.now.stand.position side v }
    ensures forks { (v : ℕ) → contains result.forks v ≡ true → contains result.all v ≡ true }
    ensures twice { (v : ℕ) → contains result.all v ≡ true
        → IsLackedTwice b.now.game b.now.stand.position side 2 (length (lines_of b.now.game)) v
        → contains result.forks v ≡ true }
    ensures fits { IsPosition b.now.game b.now.stand.position }
{
    let lacked = lacking(b, side, 2);
    let all = tried(b, side, lacked.points);
    Attacks {
        all,
        forks: both(&all, &lacked.twice),
    }
}

/// Whether no line is left of which the side lacks two after an attack that forces the reply, by
/// two counts: the attack's line is the only one of which it lacks two, and of each line through
/// the attack of which it lacks three the reply takes a point.
fn leaves_none(b: &Board<'_>, side: Side, v: u16, u: u16) -> bool
    requires attacking { IsAttacking b.now.game b.now.stand.position side }
    requires single { b.now.game.bias ≡ 1 }
    requires attack { IsAttack b.now.game b.now.stand.position v }
    requires reply { is_partner b.now.game b.now.stand.position side v u ≡ true }
    ensures { result ≡ true
        → (w : ℕ) → is_lacking b.now.game
        (after b.now.game (after b.now.game b.now.stand.position v) u) side 2 w ≡ false }
{
    if b.live_with(side.other(), 2) != 1 {
        return false;
    }
    !gains(b, side, v, u)
}

/// The first list of exactly that depth that leads to a line, where none of less depth does.
#[cycle(attacks_and_replies)]
fn first_of_depth(
    b: &mut Board<'_>,
    side: Side,
    attacks: &PointSet,
    depth: u8,
) -> Option<ThreatLine>
    requires searches { SearchesAt b.old.game b.old.stand.position side depth }
    requires tried { (v : ℕ) → contains attacks.now v ≡ true
        → IsTried b.old.game b.old.stand.position side v }
    requires begins { Begins b.old.game b.old.stand.position side depth attacks.now }
    ensures found { IsFound (LeadsToLine b.old.game b.old.stand.position side) depth result }
    ensures kept { b.new ≡ b.old }
{
    let mut next = attacks.first_from(0);
    while let Some(v) = next {
        if let Some(line) = answered(b, side, v, depth) {
            return Some(line.behind(v));
        }
        next = attacks.first_from(v + 1);
    }
    None
}

/// The first list of exactly that depth that goes on after the attack at the point, by a forced
/// reply, where none of less depth leads to a line.
///
/// The replies are read off the lines through the attack, and the last attack is a second point of
/// them: for depth 1 nothing is played. Nor is it where the attack is idle: then a list that goes
/// on after it and its reply would lead to a line without them, by less depth.
#[cycle(attacks_and_replies)]
fn answered(b: &mut Board<'_>, side: Side, v: u16, depth: u8) -> Option<ThreatLine>
    requires searches { SearchesAt b.old.game b.old.stand.position side depth }
    requires attack { IsAttack b.old.game b.old.stand.position v }
    requires answering { IsAnswering b.old.game (after b.old.game b.old.stand.position v) side }
    ensures found { IsFound (Replied b.old.game (after b.old.game b.old.stand.position v) side)
        depth result }
    ensures kept { b.new ≡ b.old }
{
    let replies = partners(b, side, v);
    let Some(u) = replies.first_from(0) else {
        return None;
    };
    if depth == 1 {
        return match replies.first_from(u + 1) {
            Some(w) => Some(ThreatLine::last(w).behind(u)),
            None => None,
        };
    }
    if leaves_none(b, side, v, u) {
        return None;
    }
    if is_idle(b, side, v, u, u16::from(depth)) {
        return None;
    }
    b.play(v);
    b.play(u);
    let attacks = attacks_at(b, side);
    let found = first_of_depth(b, side, attacks.of_depth(depth - 1), depth - 1);
    b.undo();
    b.undo();
    match found {
        Some(line) => Some(line.behind(u)),
        None => None,
    }
}

/// The threat line of least depth, and among these the first in the order of lists. None comes
/// exactly where there is none of at most that depth. The board is afterwards as before; it takes
/// no memory.
///
/// Where the side lacks more than two points of each line without a point of the other side, the
/// board's counts tell so, and it answers at once. Else depths are tried from the least on, and at
/// each position only the points of lines of which the side lacks two are tried as attacks.
///
/// The depth is the number of forced replies. The side is the one to move, in a game that isn't
/// over and in which each side claims one point a turn: X in Maker-Breaker, either in Maker-Maker.
pub fn forced(b: &mut Board<'_>, side: Side, depth: u8) -> Option<ThreatLine>
    requires few { depth ≤ 3 }
    requires turn { b.old.stand.position.turn ≡ side }
    requires going { is_over b.old.game b.old.stand.position ≡ false }
    requires single { b.old.game.bias ≡ 1 }
    requires may { may_attack b.old.game.kind side ≡ true }
    ensures answer { IsAnswer b.old.game b.old.stand.position side depth result }
    ensures kept { b.new ≡ b.old }
{
    if is_far(b, side) {
        return None;
    }
    if let Some(v) = lacking(b, side, 1).points.first_from(0) {
        return Some(ThreatLine::last(v));
    }
    let attacks = attacks_at(b, side);
    let Some(_) = attacks.all.first_from(0) else {
        return None;
    };
    for least in 1..depth + 1 {
        if let Some(line) = first_of_depth(b, side, attacks.of_depth(least), least) {
            return Some(line);
        }
    }
    None
}

/// Like [`forced`] with at most three replies, where a line is known before which no threat line
/// comes: none has fewer replies, and none of as many begins with a smaller point.
///
/// Depths are tried from that line's on, and of this depth the attacks from its first point on. The
/// board is afterwards as before; it takes no memory.
pub fn forced_after(b: &mut Board<'_>, side: Side, line: &ThreatLine) -> Option<ThreatLine>
    requires turn { b.old.stand.position.turn ≡ side }
    requires going { is_over b.old.game b.old.stand.position ≡ false }
    requires single { b.old.game.bias ≡ 1 }
    requires may { may_attack b.old.game.kind side ≡ true }
    requires bound { IsBound b.old.game b.old.stand.position side line.now }
    ensures answer { IsAnswer b.old.game b.old.stand.position side 3 result }
    ensures kept { b.new ≡ b.old }
{
    let first = line.len / 2;
    if first == 0 {
        return forced(b, side, 3);
    }
    let attacks = attacks_at(b, side);
    for depth in first..4 {
        let tried = attacks.of_depth_after(depth, line);
        if let Some(found) = first_of_depth(b, side, &tried, depth) {
            return Some(found);
        }
    }
    None
}

/// What [`forced`] finds for the other side, where the turn passes to it. The board is afterwards
/// as before; it takes no memory.
///
/// A move takes a point from the other side's lines, and gives it none. So where None comes, that
/// side has no threat line of at most that depth after any move either.
pub fn forced_passed(b: &mut Board<'_>, depth: u8) -> Option<ThreatLine>
    requires few { depth ≤ 3 }
    requires going { is_over b.old.game b.old.stand.position ≡ false }
    requires single { b.old.game.bias ≡ 1 }
    requires may { may_attack b.old.game.kind (other b.old.stand.position.turn) ≡ true }
    ensures answer { IsAnswer b.old.game (passed b.old.stand.position)
        (other b.old.stand.position.turn) depth result }
    ensures kept { b.new ≡ b.old }
{
    let side = b.turn().other();
    b.pass();
    let found = forced(b, side, depth);
    b.pass();
    found
}
