//! Sets of points below 256.
ghost use Rattle.std.specs.Prelude.{◌≡◌, ◌<◌, ◌≤◌, ◌*◌, ◌+◌, ◌&&◌, ℕ, nat_lt};
ghost use Rattle.std.specs.FinSet as set;
ghost use Rattle.pg_base.specs.Points.{AreBelow};
ghost use Rattle.pg_leaf.specs.Prelude.{MAX_POINTS};

use pg_base::PointSet;
use std::hash::{Hash, Hasher};
use std::marker::Model;

/// A set of points below `MAX_POINTS`, a bit for each.
#[derive(Clone, Copy, Debug)]
pub struct SmallSet {
    words: [u64; 4],
}

/// The set of its points.
impl Model for SmallSet {
    ghost use Rattle.std.specs.FinSet as set;
    ghost use Rattle.std.specs.Ordering.{nat_cmp};
    ghost use Rattle.std.specs.Coded.{coded_ℕ};
    ghost use Rattle.pg_base.specs.Words.{members_below};
    ghost use Rattle.pg_game.specs.declared.bounds.TheConstants.{MAX_POINTS};
    ghost use Rattle.pg_leaf.specs.SmallSets.{AreFourWords, four_words_of, four_words_of-members};

    ghost Value = { set.FinSet nat_cmp };

    ghost coded = { set.code coded_ℕ };

    ghost view = { λ a. members_below a.words MAX_POINTS };

    ghost invariant = { λ a. AreFourWords a.words };

    ghost inverse = { λ s. record { words = four_words_of s } };

    ghost inverse_ok = { λ a h i. record { words = four_words_of-members a.words h i } };
}

impl PartialEq for SmallSet {
    ghost use Rattle.pg_base.specs.PointLemmas.{equal, equal-partial};

    ghost eq = { equal };

    ghost laws = { equal-partial };

    fn eq(&self, other: &SmallSet) -> bool {
        self.words == other.words
    }
}

impl Eq for SmallSet {
    ghost use Rattle.pg_base.specs.PointLemmas.{equal-equivalence};

    ghost laws = { equal-equivalence };
}

impl Hash for SmallSet {
    ghost use Rattle.pg_leaf.specs.SmallSets.{hash_input, hash_input-respects};

    ghost hash_input = { hash_input };

    ghost respects_eq = { hash_input-respects };

    fn hash<H: Hasher>(&self, state: &mut H) {
        self.words.hash(state);
    }
}

impl SmallSet {
    /// The set, where its points are below `MAX_POINTS`.
    pub(crate) fn of(points: &PointSet) -> SmallSet
        ensures { AreBelow points.now MAX_POINTS → result ≡ points.now }
    {
        let words = points.words();
        SmallSet {
            words: [words[0], words[1], words[2], words[3]],
        }
    }

    /// Whether the point is in the set.
    fn has(&self, v: u16) -> bool
        requires { v < MAX_POINTS }
        ensures { result ≡ set.contains self.now v }
    {
        self.words[(v / 64) as usize] >> (v % 64) & 1 == 1
    }

    /// Puts the point into the set of those below it, where it is in this set.
    fn put_point(&self, v: u16, points: &mut PointSet)
        requires range { v < MAX_POINTS }
        requires below { (q : ℕ) → set.contains points.old q
            ≡ (nat_lt q v && set.contains self.now q) }
        ensures { (q : ℕ) → set.contains points.new q
            ≡ (nat_lt q (v + 1) && set.contains self.now q) }
    {
        if self.has(v) {
            points.put(v);
        }
    }

    /// Puts the points of a row of 64 into the set of those below the row.
    fn put_row(&self, row: u16, points: &mut PointSet)
        requires row { row < 4 }
        requires below { (q : ℕ) → set.contains points.old q
            ≡ (nat_lt q (64 * row) && set.contains self.now q) }
        ensures { (q : ℕ) → set.contains points.new q
            ≡ (nat_lt q (64 * (row + 1)) && set.contains self.now q) }
    {
        if self.words[row as usize] == 0 {
            return;
        }
        for v in 64 * row..64 * row + 64 {
            self.put_point(v, points);
        }
    }

    /// The same set, with room for points below 1,024.
    pub(crate) fn widened(&self) -> PointSet
        ensures { result ≡ self.now }
    {
        let _words = &self.words;
        let mut points = PointSet::empty();
        for row in 0..4 {
            self.put_row(row, &mut points);
        }
        points
    }
}
