//! Whether a threat line stands after a move of the other side.
ghost use Rattle.std.specs.Prelude.{◌≡◌, ◌≤◌, ◌<◌, ◌↔◌, true, length};
ghost use Rattle.pg_threat.specs.Prelude.{count_by, is_on, line_at, lines_of, point_count};
ghost use Rattle.pg_threat.specs.Search.{points_of_line};
ghost use Rattle.pg_threat.specs.Serving.{IsApart, IsSlowOn};

use crate::lacking::holds;
use crate::line::ThreatLine;
use pg_base::{Kind, Side};
use pg_board::Board;

/// How many points of the threat line are on the line.
fn points_on(b: &Board<'_>, t: &ThreatLine, line: u32) -> u16
    requires { line < length (lines_of b.now.game) }
    ensures exact { result
        ≡ count_by (λ x. is_on x (line_at b.now.game line)) (points_of_line t.now) }
    ensures few { result ≤ 7 }
{
    let mut count = 0;
    for v in t.as_slice() {
        if holds(b, line, *v) {
            count += 1;
        }
    }
    count
}

/// Whether the other side, with another point of the line and all of the threat line's, would still
/// lack two of its points, if the side hasn't touched it.
fn is_slow(b: &Board<'_>, side: Side, t: &ThreatLine, line: u32) -> bool
    requires { line < length (lines_of b.now.game) }
    ensures { result ≡ true ↔ IsSlowOn b.now.stand.position side (points_of_line t.now)
        (line_at b.now.game line) }
{
    if b.count(line, side) != 0 {
        return true;
    }
    b.count(line, side.other()) + points_on(b, t, line) + 3 <= b.line_len(line)
}

/// Whether the move to the point is apart from a threat line that the other side has where the turn
/// passes to it: it isn't one of the line's points, and in Maker-Maker no line through it comes so
/// near to being filled that the attacks would no longer force. The threat line then is one after
/// the move too. One attack that fills a line forces nothing, and only its point isn't apart.
pub fn is_apart(b: &Board<'_>, t: &ThreatLine, v: u16) -> bool
    requires { v < point_count b.now.game }
    ensures { result ≡ true
        ↔ IsApart b.now.game b.now.stand.position v (points_of_line t.now) }
{
    if t.has(v) {
        return false;
    }
    if b.kind() != Kind::MakerMaker {
        return true;
    }
    if t.as_slice().len() < 2 {
        return true;
    }
    let side = b.turn().other();
    for line in b.through(v) {
        if !is_slow(b, side, t, *line) {
            return false;
        }
    }
    true
}
