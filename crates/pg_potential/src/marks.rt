//! The positions of nodes that have been checked, in few words.
ghost use Rattle.std.specs.Prelude.{◌≡◌, ◌++◌, ◌∷◌, ◌*◌, ◌^◌, ◌<◌, ◌≤◌, ℕ, [], ◌↔◌, IsTrue, IfOk};
ghost use Rattle.std.specs.Prelude.{Some, get_or, length, slice_get, take};
ghost use Rattle.pg_potential.specs.Prelude.{AreBelow, AreWithin, after, insert, members_below};
ghost use Rattle.pg_potential.specs.Prelude.{words_of, x_after, y_after};
ghost use Rattle.pg_base.specs.WordLemmas.{with_bit};
ghost use Rattle.pg_potential.specs.Marks.{set_at, no_turn, position_at, kept, HasTurnOf, AreFlat};
ghost use Rattle.pg_potential.specs.Marks.{AreMarksOf, HavePointsAfter, IsTurnAfter, KeepsPoints};
ghost use Rattle.pg_potential.specs.Marks.{IsNoWorseThanKept};

use pg_base::{MAX_MEMBERS, Memory, PointSet, Side};
use pg_game::{Game, Position};
use std::alloc::Global;

/// Who is to move, and how many points that side still claims in its turn.
#[derive(Clone, Copy, Debug)]
pub(crate) struct Turn {
    /// The side to move.
    pub(crate) side: Side,
    /// How many points it still claims.
    pub(crate) left: u8,
}

/// Positions by number, in the order in which they came. A set of points takes as many words as the
/// game's points need.
#[derive(Debug, Drop)]
pub struct Marks {
    /// How many words a set of points takes.
    pub width: usize,
    /// For each position the words of X's points, and then those of Y's.
    pub(crate) words: Vec<u64>,
    /// For each position its turn.
    pub(crate) turns: Vec<Turn>,
}

/// Whether each bit of so many words is in the other words.
fn are_within(mine: &[u64], theirs: &[u64], count: usize) -> bool
    requires mine { count ≤ length mine.now }
    requires theirs { count ≤ length theirs.now }
    requires fit { (i : ℕ) → (get_or mine.now i 0 < 2 ^ 64) × (get_or theirs.now i 0 < 2 ^ 64) }
    ensures { IsTrue result
        ↔ AreWithin (members_below mine.now (64 * count)) (members_below theirs.now (64 * count)) }
{
    for i in 0..count {
        if mine[i] & !theirs[i] != 0 {
            return false;
        }
    }
    true
}

/// Whether so many words are the same.
fn are_same(mine: &[u64], theirs: &[u64], count: usize) -> bool
    requires mine { count ≤ length mine.now }
    requires theirs { count ≤ length theirs.now }
    ensures { IsTrue result ↔ (take count mine.now ≡ take count theirs.now) }
{
    for i in 0..count {
        if mine[i] != theirs[i] {
            return false;
        }
    }
    true
}

/// The word of this number with the bit of the point put to its own word.
fn word_with(words: &[u64], i: usize, v: u16) -> u64
    requires { i < length words.now }
    ensures { result ≡ get_or (with_bit words.now v) i 0 }
{
    let word = words[i];
    if i == usize::from(v / 64) {
        word | 1 << (v % 64)
    } else {
        word
    }
}

/// Whether so many words are the same but for the bit of the point, which mine have.
fn are_same_with(mine: &[u64], theirs: &[u64], count: usize, v: u16) -> bool
    requires mine { count ≤ length mine.now }
    requires theirs { count ≤ length theirs.now }
    ensures { IsTrue result ↔ (take count mine.now ≡ take count (with_bit theirs.now v)) }
{
    for i in 0..count {
        if mine[i] != word_with(theirs, i, v) {
            return false;
        }
    }
    true
}

/// Puts so many words of the set behind the words.
fn push_row(words: &mut Vec<u64>, set: &PointSet, width: usize) -> Result<(), Memory>
    requires { width ≤ 16 }
    ensures { IfOk result
        (λ _. words.new.items ≡ words.old.items ++ take width (words_of set.now)) }
{
    let row = set.words();
    for i in 0..width {
        words.push(row[i])?;
    }
    Ok(())
}

impl Marks {
    /// No position of the game yet.
    pub fn new(alloc: Global, g: &Game) -> Marks
        ensures none { kept result ≡ [] }
        ensures made { AreMarksOf g.now result }
    {
        Marks {
            width: (usize::from(g.points()) + 63) / 64,
            words: Vec::new(alloc),
            turns: Vec::new(alloc),
        }
    }

    /// How many positions there are.
    pub fn count(&self) -> usize
        ensures { result ≡ length (kept self.now) }
    {
        self.turns.len()
    }

    /// Whether the set of this row is that one.
    fn has_set(&self, row: usize, set: &PointSet) -> bool
        requires flat { AreFlat self.now }
        requires row { row < 2 * length self.now.turns.items }
        requires below { AreBelow set.now (64 * self.now.width) }
        ensures { IsTrue result ↔ (set_at self.now.words.items self.now.width row ≡ set.now) }
    {
        are_same(&self.words[self.width * row..], set.words(), self.width)
    }

    /// Whether the set of this row is that one with the point put into it.
    fn has_more(&self, row: usize, set: &PointSet, v: u16) -> bool
        requires flat { AreFlat self.now }
        requires row { row < 2 * length self.now.turns.items }
        requires small { v < MAX_MEMBERS }
        requires below { AreBelow (insert set.now v) (64 * self.now.width) }
        ensures { IsTrue result
            ↔ (set_at self.now.words.items self.now.width row ≡ insert set.now v) }
    {
        are_same_with(&self.words[self.width * row..], set.words(), self.width, v)
    }

    /// Whether each point of this row's set is in that one.
    fn is_within(&self, row: usize, set: &PointSet) -> bool
        requires flat { AreFlat self.now }
        requires row { row < 2 * length self.now.turns.items }
        requires below { AreBelow set.now (64 * self.now.width) }
        ensures { IsTrue result
            ↔ AreWithin (set_at self.now.words.items self.now.width row) set.now }
    {
        are_within(&self.words[self.width * row..], set.words(), self.width)
    }

    /// Whether each point of that set is in this row's.
    fn has_within(&self, row: usize, set: &PointSet) -> bool
        requires flat { AreFlat self.now }
        requires row { row < 2 * length self.now.turns.items }
        requires below { AreBelow set.now (64 * self.now.width) }
        ensures { IsTrue result
            ↔ AreWithin set.now (set_at self.now.words.items self.now.width row) }
    {
        are_within(set.words(), &self.words[self.width * row..], self.width)
    }

    /// Whether the side has all its points of the position of this number, and the other side no
    /// others than there.
    fn keeps_points(&self, side: Side, k: usize, p: &Position) -> bool
        requires flat { AreFlat self.now }
        requires place { k < length self.now.turns.items }
        requires x { AreBelow p.now.x (64 * self.now.width) }
        requires y { AreBelow p.now.y (64 * self.now.width) }
        ensures { IsTrue result
            ↔ KeepsPoints side
            (position_at self.now.words.items self.now.width self.now.turns.items k) p.now }
    {
        match side {
            Side::X => self.is_within(2 * k, &p.x) && self.has_within(2 * k + 1, &p.y),
            Side::Y => self.is_within(2 * k + 1, &p.y) && self.has_within(2 * k, &p.x),
        }
    }

    /// Whether in the position of this number the same side is to move as in p, and still claims as
    /// many points.
    fn has_turn(&self, k: usize, p: &Position) -> bool
        requires { k < length self.now.turns.items }
        ensures { IsTrue result ↔ HasTurnOf p.now (get_or self.now.turns.items k no_turn) }
    {
        let turn = self.turns[k];
        turn.side.is_same(p.turn) && turn.left == p.left
    }

    /// Whether in the position of this number the turn is the one after a move at p.
    fn has_next_turn(&self, k: usize, g: &Game, p: &Position) -> bool
        requires { k < length self.now.turns.items }
        ensures { IsTrue result
            ↔ IsTurnAfter g.now.bias p.now (get_or self.now.turns.items k no_turn) }
    {
        let turn = self.turns[k];
        if p.left > 1 {
            return turn.left == p.left - 1 && turn.side.is_same(p.turn);
        }
        let next = p.turn.other();
        turn.side.is_same(next) && turn.left == g.bias_of(next)
    }

    /// Whether there is a position of this number, and p is no worse for the side.
    pub fn is_no_worse(&self, side: Side, k: u32, p: &Position) -> bool
        requires flat { AreFlat self.now }
        requires x { AreBelow p.now.x (64 * self.now.width) }
        requires y { AreBelow p.now.y (64 * self.now.width) }
        ensures { IsTrue result ↔ IsNoWorseThanKept self.now side k p.now }
    {
        let k = k as usize;
        if k >= self.turns.len() {
            return false;
        }
        if !self.has_turn(k, p) {
            return false;
        }
        self.keeps_points(side, k, p)
    }

    /// Whether the position of this number has the points of p with one put to those of the side to
    /// move.
    fn has_points_after(&self, k: usize, p: &Position, v: u16) -> bool
        requires flat { AreFlat self.now }
        requires place { k < length self.now.turns.items }
        requires small { v < MAX_MEMBERS }
        requires x { AreBelow (x_after p.now.turn p.now.x v) (64 * self.now.width) }
        requires y { AreBelow (y_after p.now.turn p.now.y v) (64 * self.now.width) }
        ensures { IsTrue result
            ↔ HavePointsAfter p.now v
            (position_at self.now.words.items self.now.width self.now.turns.items k) }
    {
        match p.turn {
            Side::X => self.has_more(2 * k, &p.x, v) && self.has_set(2 * k + 1, &p.y),
            Side::Y => self.has_set(2 * k, &p.x) && self.has_more(2 * k + 1, &p.y, v),
        }
    }

    /// Whether there is a position of this number, and it is the one after the side to move at p
    /// takes the point.
    pub fn is_after(&self, k: u32, g: &Game, p: &Position, v: u16) -> bool
        requires flat { AreFlat self.now }
        requires small { v < MAX_MEMBERS }
        requires x { AreBelow (x_after p.now.turn p.now.x v) (64 * self.now.width) }
        requires y { AreBelow (y_after p.now.turn p.now.y v) (64 * self.now.width) }
        ensures { IsTrue result ↔ (slice_get (kept self.now) k ≡ Some (after g.now p.now v)) }
    {
        let k = k as usize;
        if k >= self.turns.len() {
            return false;
        }
        if !self.has_next_turn(k, g, p) {
            return false;
        }
        self.has_points_after(k, p, v)
    }

    /// Keeps one position more.
    pub fn push(&mut self, p: &Position) -> Result<(), Memory>
        requires flat { AreFlat self.old }
        requires x { AreBelow p.now.x (64 * self.old.width) }
        requires y { AreBelow p.now.y (64 * self.old.width) }
        ensures width { self.new.width ≡ self.old.width }
        ensures flat { IfOk result (λ _. AreFlat self.new) }
        ensures kept { IfOk result (λ _. kept self.new ≡ kept self.old ++ p.now ∷ []) }
    {
        push_row(&mut self.words, &p.x, self.width)?;
        push_row(&mut self.words, &p.y, self.width)?;
        self.turns.push(Turn {
            side: p.turn,
            left: p.left,
        })?;
        Ok(())
    }
}
