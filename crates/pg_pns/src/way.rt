//! The moves that lead to a position. No promise rests on them.
use pg_game::MAX_POINTS;

/// The points of moves, the first at index 0; those beyond the last one are left over.
#[derive(Debug, Drop)]
pub(crate) struct Way {
    points: [u16; MAX_POINTS],
}

impl Way {
    /// No moves.
    pub(crate) fn new() -> Way {
        Way {
            points: [0; MAX_POINTS],
        }
    }

    /// Whether the move at the index is to the point.
    pub(crate) fn has(&self, i: usize, v: u16) -> bool {
        if i >= MAX_POINTS {
            return false;
        }
        self.points[i] == v
    }

    /// Makes the point that of the move at the index, if a way is so long.
    pub(crate) fn put(&mut self, i: usize, v: u16) {
        if i < MAX_POINTS {
            self.points[i] = v;
        }
    }
}
