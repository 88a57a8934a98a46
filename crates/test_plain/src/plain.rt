//! Connectivity games and games on vectors by trying every play. X wants its points to pass a test.
use crate::families::{Family, ends_of};
use pg_plain::Class;

/// Whether the edges of the list that a set tells join all vertices, by spreading from the first.
fn joins(vertices: u16, list: &[u32], points: u32) -> bool {
    let mut reached = 1u32;
    for _ in 0..vertices {
        for (k, number) in list.iter().enumerate() {
            let (u, v) = ends_of(*number);
            let both = 1u32 << (u & 15) | 1u32 << (v & 15);
            if points >> (k & 15) & 1 == 1 && reached & both != 0 {
                reached |= both;
            }
        }
    }
    reached == (1u32 << (vertices & 15)).wrapping_sub(1)
}

/// Whether the target is the sum without carry of some vectors of the list that a set tells, by
/// gathering all sums.
fn sums(target: u32, list: &[u32], points: u32) -> bool {
    let mut known = 1u32;
    for (k, vector) in list.iter().enumerate() {
        let taken = points >> (k & 15) & 1;
        let old = known & 0u32.wrapping_sub(taken);
        for sum in 0..8u32 {
            let other = sum ^ *vector;
            known |= (old >> sum & 1) << (other & 15);
        }
    }
    known >> (target & 15) & 1 == 1
}

/// Which sets of at most five points pass: the binary digits of each are the number of a digit
/// here. Points past the game's don't count.
pub(crate) fn passing(family: Family, list: &[u32]) -> u32 {
    let mut passing = 0u32;
    for points in 0..32u32 {
        let passes = match family {
            Family::Switching { .. } => false,
            Family::Connectivity { vertices } => joins(vertices, list, points),
            Family::Vectors { target } => sums(target, list, points),
        };
        passing |= u32::from(passes) << points;
    }
    passing
}

/// Whether X wins where at most so many points are free. The game is over where X's points pass, or
/// where those that aren't Y's don't.
fn x_wins(passing: u32, points: u16, x: u32, y: u32, x_moves: bool, free: u8) -> bool {
    if passing >> (x % 32) & 1 == 1 {
        return true;
    }
    if free == 0 || passing >> (!y % 32) & 1 == 0 {
        return false;
    }
    for v in 0..points {
        let point = 1u32 << (v & 15);
        if (x | y) & point == 0 {
            let (x, y) = if x_moves {
                (x | point, y)
            } else {
                (x, y | point)
            };
            if x_wins(passing, points, x, y, !x_moves, free - 1) == x_moves {
                return x_moves;
            }
        }
    }
    !x_moves
}

/// Who wins at the marks: `Short` stands for X, and `Cut` for Y. No game has none.
pub(crate) fn class_by_plays(passing: u32, points: u16, x: u32, y: u32) -> Option<Class> {
    let with_x = x_wins(passing, points, x, y, true, 16);
    let with_y = x_wins(passing, points, x, y, false, 16);
    match (with_x, with_y) {
        (true, true) => Some(Class::Short),
        (false, false) => Some(Class::Cut),
        (true, false) => Some(Class::First),
        (false, true) => None,
    }
}
