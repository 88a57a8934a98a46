//! The free points of lines of which a side lacks few points.
ghost use Rattle.std.specs.Prelude.{◌≡◌, ◌<◌, ◌≤◌, ◌+◌, ◌||◌, ℕ, List, true, false, length};
ghost use Rattle.pg_threat.specs.Prelude.{Contains, contains, insert, other, MakerMaker, lines_of};
ghost use Rattle.pg_threat.specs.Prelude.{point_count, All, IsPosition, is_on, line_at};
ghost use Rattle.pg_threat.specs.Lacking.{is_gained, is_open_on, is_lacking, is_partner, lacks};
ghost use Rattle.pg_threat.specs.Lacking.{IsLackedTwice};
ghost use Rattle.pg_threat.specs.Lacking.{own_count, IsIdle, IsOutOfReach};

use pg_base::{Kind, MAX_MEMBERS, PointSet, Side};
use pg_board::Board;
use pg_game::MAX_POINTS;

/// Points that a side lacks.
#[derive(Clone, Copy, Debug)]
pub(crate) struct Lacked {
    /// All of them.
    pub(crate) points: PointSet,
    /// At least those that it lacks on two lines.
    pub(crate) twice: PointSet,
}

impl Lacked {
    /// Puts a point to them that is lacked on one more line.
    fn put(&mut self, v: u16)
        requires { v < MAX_MEMBERS }
        ensures points { self.new.points ≡ insert self.old.points v }
        ensures kept { (q : ℕ) → contains self.old.twice q ≡ true
            → contains self.new.twice q ≡ true }
        ensures again { contains self.old.points v ≡ true → contains self.new.twice v ≡ true }
    {
        if self.points.has(v) {
            self.twice.put(v);
        }
        self.points.put(v);
    }
}

/// The points of the line, ascending.
fn line_points<'a>(b: &Board<'a>, line: u32) -> &'a [u16]
    requires { line < length (lines_of b.now.game) }
    ensures points { result.now ≡ line_at b.now.game line }
    ensures range { All (λ v. v < MAX_POINTS) result.now }
{
    b.game().lines()[line as usize].as_slice()
}

/// Puts the free points of the line to the others.
fn put_open(b: &Board<'_>, line: u32, lacked: &mut Lacked)
    requires { line < length (lines_of b.now.game) }
    ensures points { (v : ℕ) → contains lacked.new.points v ≡ (contains lacked.old.points v
        || is_open_on b.now.stand.position (line_at b.now.game line) v) }
    ensures kept { (v : ℕ) → contains lacked.old.twice v ≡ true
        → contains lacked.new.twice v ≡ true }
    ensures again { (v : ℕ) → contains lacked.old.points v ≡ true
        → is_open_on b.now.stand.position (line_at b.now.game line) v ≡ true
        → contains lacked.new.twice v ≡ true }
{
    for v in line_points(b, line) {
        let v = *v;
        if b.is_free(v) {
            lacked.put(v);
        }
    }
}

/// The free points of the lines that the other side hasn't touched and of which the side lacks so
/// many points.
///
/// Where the board counts no such line it answers at once. Else it walks the lines that the other
/// side hasn't touched, and looks at the points of those alone of which so many are missing.
pub(crate) fn lacking(b: &Board<'_>, side: Side, missing: u16) -> Lacked
    requires { missing ≤ 2 }
    ensures points { (v : ℕ)
        → contains result.points v ≡ is_lacking b.now.game b.now.stand.position side missing v }
    ensures twice { (v : ℕ) → IsLackedTwice b.now.game b.now.stand.position side missing
        (length (lines_of b.now.game)) v
        → contains result.twice v ≡ true }
    ensures fits { IsPosition b.now.game b.now.stand.position }
{
    let mut lacked = Lacked {
        points: PointSet::empty(),
        twice: PointSet::empty(),
    };
    let enemy = side.other();
    let mut next = b.first_live(enemy);
    if b.live_with(enemy, missing) == 0 {
        return lacked;
    }
    while let Some(line) = next {
        if b.count(line, side) + missing == b.line_len(line) {
            put_open(b, line, &mut lacked);
        }
        next = b.next_live(enemy, line);
    }
    lacked
}

/// Whether the board's counts show that the side lacks more than two points of each line that the
/// other side hasn't touched.
pub(crate) fn is_far(b: &Board<'_>, side: Side) -> bool
    ensures one { result ≡ true → (v : ℕ)
        → is_lacking b.now.game b.now.stand.position side 1 v ≡ false }
    ensures two { result ≡ true → (v : ℕ)
        → is_lacking b.now.game b.now.stand.position side 2 v ≡ false }
    ensures fits { IsPosition b.now.game b.now.stand.position }
{
    let enemy = side.other();
    let Some(_) = b.first_live(enemy) else {
        return false;
    };
    if b.live_with(enemy, 1) != 0 {
        return false;
    }
    b.live_with(enemy, 2) == 0
}

/// Whether the other side hasn't touched the line and the side lacks so many points of it.
fn lacks(b: &Board<'_>, side: Side, missing: u16, line: u32) -> bool
    requires range { line < length (lines_of b.now.game) }
    requires few { missing ≤ 3 }
    ensures { result ≡ lacks b.now.stand.position side missing (line_at b.now.game line) }
{
    if b.count(line, side.other()) != 0 {
        return false;
    }
    b.count(line, side) + missing == b.line_len(line)
}

/// The other free points of the lines through the point that the other side hasn't touched and of
/// which the side lacks two.
pub(crate) fn partners(b: &Board<'_>, side: Side, v: u16) -> PointSet
    requires range { v < point_count b.now.game }
    requires few { v < MAX_MEMBERS }
    ensures { (u : ℕ) → contains result u ≡ is_partner b.now.game b.now.stand.position side v u }
{
    let mut lacked = Lacked {
        points: PointSet::empty(),
        twice: PointSet::empty(),
    };
    for line in b.through(v) {
        if lacks(b, side, 2, *line) {
            put_open(b, *line, &mut lacked);
        }
    }
    lacked.points.take(v);
    lacked.points
}

/// Whether the point is one of the line.
pub(crate) fn holds(b: &Board<'_>, line: u32, u: u16) -> bool
    requires { line < length (lines_of b.now.game) }
    ensures { result ≡ is_on u (line_at b.now.game line) }
{
    line_points(b, line).iter().any(|v| *v == u)
}

/// Whether the other side hasn't touched the line, the side lacks three points of it, and it misses
/// the point.
fn is_gained(b: &Board<'_>, side: Side, u: u16, line: u32) -> bool
    requires { line < length (lines_of b.now.game) }
    ensures { result ≡ is_gained b.now.stand.position side u (line_at b.now.game line) }
{
    if !lacks(b, side, 3, line) {
        return false;
    }
    !holds(b, line, u)
}

/// Whether the side lacks three points of a line through the point that the other side hasn't
/// touched and that misses the other point.
pub(crate) fn gains(b: &Board<'_>, side: Side, v: u16, u: u16) -> bool
    requires { v < point_count b.now.game }
    ensures { result ≡ false
        → (line : List ℕ) → Contains (lines_of b.now.game) line
        → is_on v line ≡ true
        → is_gained b.now.stand.position side u line ≡ false }
{
    for line in b.through(v) {
        if is_gained(b, side, u, *line) {
            return true;
        }
    }
    false
}

/// Whether the line is in the side's reach: the other side hasn't touched it, the side lacks at
/// most so many points of it, and it misses the point.
fn is_in_reach(b: &Board<'_>, side: Side, u: u16, most: u16, line: u32) -> bool
    requires range { line < length (lines_of b.now.game) }
    requires few { most ≤ 4 }
    ensures { result ≡ false
        → IsOutOfReach b.now.stand.position side u most (line_at b.now.game line) }
{
    if b.count(line, side.other()) != 0 {
        return false;
    }
    if b.count(line, side) + most < b.line_len(line) {
        return false;
    }
    !holds(b, line, u)
}

/// Whether the line, through an attack, is a reason to make it where the reply is at the point: for
/// the side, as a line to fill by a list of less than that depth; in Maker-Maker against the other
/// side, which would come to lack only the attack.
fn serves(b: &Board<'_>, side: Side, u: u16, depth: u16, line: u32) -> bool
    requires range { line < length (lines_of b.now.game) }
    requires few { depth ≤ 3 }
    ensures mine { result ≡ false
        → IsOutOfReach b.now.stand.position side u (depth + 1) (line_at b.now.game line) }
    ensures theirs { result ≡ false → b.now.game.kind ≡ MakerMaker
        → own_count b.now.stand.position (other side) (line_at b.now.game line) + depth
        ≤ length (line_at b.now.game line) }
{
    if b.kind() == Kind::MakerMaker {
        if b.count(line, side.other()) + depth > b.line_len(line) {
            return true;
        }
    }
    is_in_reach(b, side, u, depth + 1, line)
}

/// Whether no line through the attack at v is a reason to make it, where u is the reply: what leads
/// to a line after both by less than that depth does so without them.
pub(crate) fn is_idle(b: &Board<'_>, side: Side, v: u16, u: u16, depth: u16) -> bool
    requires range { v < point_count b.now.game }
    requires few { depth ≤ 3 }
    ensures { result ≡ true → IsIdle b.now.game b.now.stand.position side v u depth }
{
    for line in b.through(v) {
        if serves(b, side, u, depth, *line) {
            return false;
        }
    }
    true
}
