//! Values, classes, threat lines and private pairs of the plain program.
use crate::told::yes_or_no;
use pg_base::{Score, Side};
use pg_game::{Game, Judge};
use pg_plain::{
    Class, attack_wins, class_of, has_threat_line, have_private_pairs, is_threat_line, numbers,
    part, value,
};
use std::alloc::Global;

/// The word for the value of the game.
pub(crate) fn value_word(alloc: Global, g: &Game) -> Option<&'static str> {
    let mut judge = Judge::new(alloc, g).ok()?;
    Some(match value(&mut judge, g, &g.start()) {
        Score::XWins => "x",
        Score::Draw => "draw",
        Score::YWins => "y",
    })
}

/// The word for the class of the game.
pub(crate) fn class_word(alloc: Global, g: &Game) -> Option<&'static str> {
    let mut judge = Judge::new(alloc, g).ok()?;
    Some(match class_of(&mut judge, g) {
        Some(Class::Short) => "short",
        Some(Class::Cut) => "cut",
        Some(Class::First) => "first",
        None => "none",
    })
}

/// The word for whether the points of the row are a threat line of X.
pub(crate) fn line_word(alloc: Global, g: &Game, row: &str) -> Option<&'static str> {
    let points = numbers(alloc, part(row, 5))?;
    Some(yes_or_no(is_threat_line(g, &g.start(), Side::X, points.as_slice())))
}

/// The word for the least depth, of at most three, within which the side to move has a threat line.
fn depth_word(g: &Game) -> &'static str {
    for depth in 0..4 {
        if has_threat_line(g, &g.start(), depth) {
            return match depth {
                0 => "0",
                1 => "1",
                2 => "2",
                _ => "3",
            };
        }
    }
    "none"
}

/// Whether that depth is the first word of what is due, and the second says whether a threat line
/// wins.
pub(crate) fn depth_is_due(g: &Game, due: &str) -> bool {
    let wins = yes_or_no(attack_wins(g, &g.start()));
    depth_word(g) == pg_plain::word(due, 0) && wins == pg_plain::word(due, 1)
}

/// The word for whether the lines without a point of Y can have private pairs of the free points.
pub(crate) fn private_word(g: &Game) -> &'static str {
    yes_or_no(have_private_pairs(g.lines(), &g.y, &g.free_points(&g.start())))
}
