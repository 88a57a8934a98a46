//! A set of points below 1,024, a bit for each.
ghost use Rattle.std.specs.Prelude.{◌≡◌, ℕ, ◌<◌, ◌≤◌, ◌+◌, ◌*◌, ◌==◌, nat_lt, length, true, false};
ghost use Rattle.std.specs.Prelude.{not, ◌&&◌, ◌||◌, IfSome, IfNone, IsTrue, ◌↔◌};
ghost use Rattle.std.specs.List.{All, list_any, list_all};
ghost use Rattle.std.specs.FinSet as set;
ghost use Rattle.pg_base.specs.Words.{words_of};
ghost use Rattle.pg_base.specs.Points.{IsLeastFrom, AreBelow, ShareNone, AreWithin};

use crate::limits::MAX_MEMBERS;
use std::hash::{Hash, Hasher};
use std::marker::Model;

/// A set of points, which are numbers below `MAX_MEMBERS`.
#[derive(Clone, Copy, Debug)]
pub struct PointSet {
    words: [u64; 16],
}

/// The set of its points.
impl Model for PointSet {
    ghost use Rattle.std.specs.FinSet as set;
    ghost use Rattle.std.specs.Ordering.{nat_cmp};
    ghost use Rattle.std.specs.Coded.{coded_ℕ};
    ghost use Rattle.pg_base.specs.Words.{members_below, AreWords, words_of};
    ghost use Rattle.pg_base.specs.declared.limits.TheConstants.{MAX_MEMBERS};
    ghost use Rattle.pg_base.specs.WordLemmas.{words_of-members};

    ghost Value = { set.FinSet nat_cmp };

    ghost coded = { set.code coded_ℕ };

    ghost view = { λ a. members_below a.words MAX_MEMBERS };

    ghost invariant = { λ a. AreWords a.words };

    ghost inverse = { λ s. record { words = words_of s } };

    ghost inverse_ok = { λ a h i. record { words = words_of-members a.words h i } };
}

impl PartialEq for PointSet {
    ghost use Rattle.pg_base.specs.PointLemmas.{equal, equal-partial};

    ghost eq = { equal };

    ghost laws = { equal-partial };

    fn eq(&self, other: &PointSet) -> bool {
        self.words == other.words
    }
}

impl Eq for PointSet {
    ghost use Rattle.pg_base.specs.PointLemmas.{equal-equivalence};

    ghost laws = { equal-equivalence };
}

impl Hash for PointSet {
    ghost use Rattle.pg_base.specs.PointLemmas.{hash_input, hash_input-respects};

    ghost hash_input = { hash_input };

    ghost respects_eq = { hash_input-respects };

    fn hash<H: Hasher>(&self, state: &mut H) {
        self.words.hash(state);
    }
}

impl PointSet {
    /// The set without points.
    pub fn empty() -> PointSet
        ensures { result ≡ set.empty }
    {
        PointSet { words: [0; 16] }
    }

    /// The set of the points, which may come in any order and more than once.
    pub fn from_points(points: &[u16]) -> PointSet
        requires { All (λ v. v < MAX_MEMBERS) points.now }
        ensures set { result ≡ set.from_list points.now }
        ensures members { (v : ℕ) → set.contains result v ≡ list_any (λ q. q == v) points.now }
    {
        let mut set = PointSet::empty();
        for v in points {
            set.put(*v);
        }
        set
    }

    /// The set of all points below the limit.
    pub fn all_below(limit: u16) -> PointSet
        requires { limit ≤ MAX_MEMBERS }
        ensures { (v : ℕ) → set.contains result v ≡ nat_lt v limit }
    {
        let mut set = PointSet::empty();
        for v in 0..limit {
            set.put(v);
        }
        set
    }

    /// Whether the set has no point.
    pub fn is_empty(&self) -> bool
        ensures { IsTrue result ↔ ((v : ℕ) → set.contains self.now v ≡ false) }
    {
        self.first_from(0).is_none()
    }

    /// Whether the point is in the set.
    pub fn has(&self, p: u16) -> bool
        requires { p < MAX_MEMBERS }
        ensures { result ≡ set.contains self.now p }
    {
        self.words[(p / 64) as usize] >> (p % 64) & 1 == 1
    }

    /// The set as machine words of 64 points each: bit b of word i stands for the point
    /// `64 * i + b`.
    pub fn words(&self) -> &[u64]
        ensures words { result.now ≡ words_of self.now }
        ensures count { length result.now ≡ 16 }
    {
        &self.words
    }

    /// Whether one of the points is in the set.
    pub fn meets(&self, points: &[u16]) -> bool
        requires { All (λ v. v < MAX_MEMBERS) points.now }
        ensures { result ≡ list_any (set.contains self.now) points.now }
    {
        points.iter().any(|v| self.has(*v))
    }

    /// Whether each of the points is in the set.
    pub fn has_all(&self, points: &[u16]) -> bool
        requires { All (λ v. v < MAX_MEMBERS) points.now }
        ensures { result ≡ list_all (set.contains self.now) points.now }
    {
        points.iter().all(|v| self.has(*v))
    }

    /// Puts the point into the set.
    pub fn put(&mut self, p: u16)
        requires { p < MAX_MEMBERS }
        ensures { self.new ≡ set.insert self.old p }
    {
        self.words[(p / 64) as usize] |= 1 << (p % 64);
    }

    /// Takes the point out of the set.
    pub fn take(&mut self, p: u16)
        requires { p < MAX_MEMBERS }
        ensures { self.new ≡ set.remove self.old p }
    {
        self.words[(p / 64) as usize] &= !(1 << (p % 64));
    }

    /// How many points the set has.
    pub fn len(&self) -> u32
        ensures exact { result ≡ set.len self.now }
        ensures few { result ≤ MAX_MEMBERS }
    {
        let mut points = 0;
        for word in &self.words {
            points += word.count_ones();
        }
        points
    }

    /// The least point of the set that is not below `p`; none exactly where each point is below it.
    /// Each point of a set is below `MAX_MEMBERS`.
    pub fn first_from(&self, p: u16) -> Option<u16>
        ensures found { IfSome result (λ v. IsLeastFrom self.now p v) }
        ensures range { IfSome result (λ v. v < MAX_MEMBERS) }
        ensures limit { AreBelow self.now MAX_MEMBERS }
        ensures none { IfNone result ((q : ℕ) → p ≤ q → set.contains self.now q ≡ false) }
    {
        let _words = &self.words;
        for row in p / 64..16 {
            let found = self.first_in_row(row, p.saturating_sub(64 * row));
            if found.is_some() {
                return found;
            }
        }
        None
    }

    // The least point of the row that is in the set, from a column on.
    fn first_in_row(&self, row: u16, column: u16) -> Option<u16>
        requires row { row < 16 }
        requires column { column < 64 }
        ensures found { IfSome result (λ v. IsLeastFrom self.now (64 * row + column) v) }
        ensures range { IfSome result (λ v. v < MAX_MEMBERS) }
        ensures none { IfNone result
            ((q : ℕ) → 64 * row + column ≤ q → q < 64 * (row + 1)
            → set.contains self.now q ≡ false) }
    {
        let word = self.words[row as usize] >> column;
        if word == 0 {
            None
        } else {
            Some(64 * row + column + word.trailing_zeros() as u16)
        }
    }

    /// Whether each point of the set is below the limit.
    pub fn is_below(&self, limit: u16) -> bool
        ensures { IsTrue result ↔ AreBelow self.now limit }
    {
        self.first_from(limit).is_none()
    }

    /// Whether no point is in both sets.
    pub fn shares_none(&self, other: &PointSet) -> bool
        ensures { IsTrue result ↔ ShareNone self.now other.now }
    {
        let (mine, theirs) = (&self.words, &other.words);
        for row in 0..16 {
            if mine[row] & theirs[row] != 0 {
                return false;
            }
        }
        true
    }

    /// Whether each point of the set is in the other set.
    pub fn is_subset(&self, other: &PointSet) -> bool
        ensures { IsTrue result ↔ AreWithin self.now other.now }
    {
        let (mine, theirs) = (&self.words, &other.words);
        for row in 0..16 {
            if mine[row] & !theirs[row] != 0 {
                return false;
            }
        }
        true
    }

    /// The points that are in one or both of the sets.
    pub fn union(&self, other: &PointSet) -> PointSet
        ensures members { (v : ℕ)
            → set.contains result v ≡ (set.contains self.now v || set.contains other.now v) }
        ensures union { result ≡ set.union self.now other.now }
    {
        let (mut words, theirs) = (self.words, &other.words);
        for row in 0..16 {
            words[row] |= theirs[row];
        }
        PointSet { words }
    }

    /// The points of the set that aren't in the other set.
    pub fn without(&self, other: &PointSet) -> PointSet
        ensures members { (v : ℕ)
            → set.contains result v ≡ (set.contains self.now v && not (set.contains other.now v)) }
        ensures difference { result ≡ set.difference self.now other.now }
    {
        let (mut words, theirs) = (self.words, &other.words);
        for row in 0..16 {
            words[row] &= !theirs[row];
        }
        PointSet { words }
    }
}
