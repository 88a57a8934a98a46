//! The first threat line by trying all lists.
use pg_base::Side;
use pg_game::{Game, Position};
use pg_plain::is_threat_line;
use pg_threat::ThreatLine;

/// Fills the list from a place on with free points so that it is a threat line, the first such list
/// in the order of lists. `now` is the position after the points before that place.
fn fill(g: &Game, p: &Position, side: Side, now: &Position, points: &mut [u16], at: usize) -> bool {
    if at >= points.len() {
        return is_threat_line(g, p, side, points);
    }
    for v in 0..g.points() {
        if now.is_free(v) {
            points[at] = v;
            if fill(g, p, side, &g.after(now, v), points, at + 1) {
                return true;
            }
        }
    }
    false
}

/// The shortest threat line of the side at the position with seven points at most, of these the
/// first in the order of lists. It tries lists of one point, of three, of five and of seven.
pub(crate) fn first_line(g: &Game, p: &Position, side: Side) -> Option<ThreatLine> {
    for depth in 0..4u8 {
        let len = 2 * depth + 1;
        let mut points = [0; 7];
        if fill(g, p, side, p, &mut points[..usize::from(len)], 0) {
            return Some(ThreatLine { len, points });
        }
    }
    None
}
