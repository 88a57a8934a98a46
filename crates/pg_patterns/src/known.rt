//! The patterns and positions that a search knows.
ghost use Rattle.std.specs.Prelude.{◌+◌, ◌≤◌, vec_len};
ghost use Rattle.std.specs.HashMap.{hash_map_len};

use crate::arena::Arena;
use crate::numbers::Numbers;
use crate::pattern::{Image, Pattern};
use crate::small_set::SmallSet;
use crate::spot::Spot;
use crate::trie::Trie;
use pg_base::{Memory, Side};
use pg_limits::Limits;
use std::alloc::Global;
use std::collections::HashMap;

/// A position that was expanded and isn't decided.
#[derive(Debug, Drop)]
pub struct Undecided {
    /// How hard it seems that each side wins.
    pub numbers: Numbers,
    /// The moves of which no pattern of the other side is known that answers them.
    pub must: SmallSet,
    /// The patterns that answer the other moves.
    pub answers: Vec<Image>,
}

/// A position that was met.
#[derive(Debug, Drop)]
pub enum Entry {
    /// The pattern of this number decides it.
    Decided(u32),
    /// It isn't decided.
    Undecided(Undecided),
}

/// A summary of what is known of a position.
#[derive(Clone, Copy, Debug)]
pub enum Glimpse {
    /// The pattern of this number decides it.
    Decided(u32),
    /// It isn't decided.
    Undecided(Numbers),
    /// It wasn't met.
    Unmet,
}

/// The patterns and the positions that a search knows, and what it may use.
#[derive(Debug, Drop)]
pub struct Known {
    limits: Limits,
    /// How many positions are expanded.
    expanded: u32,
    patterns: Vec<Pattern>,
    positions: HashMap<Spot, Entry>,
    x_moves: Trie,
    x_waits: Trie,
    y_moves: Trie,
    y_waits: Trie,
    ghost few: { vec_len patterns + hash_map_len positions ≤ limits.entries },
    ghost expands: { expanded ≤ limits.positions },
}

impl Known {
    ghost use Rattle.std.specs.Prelude.{◌≡◌, ◌<◌, ◌^◌, ◌↔◌, [], length, true, false};
    ghost use Rattle.std.specs.Prelude.{if◌then◌else◌, None, Some, is_some, option_copied};
    ghost use Rattle.std.specs.Prelude.{IfOk, IsSome, IsTrue, OnErr, OnOk, slice_get};
    ghost use Rattle.pg_patterns.specs.declared.spot.Spot.{Spot};
    ghost use Rattle.pg_patterns.specs.Known.{IsAdded, claimer_at, entries_of, entry_at};
    ghost use Rattle.pg_patterns.specs.Known.{expanded_of, is_same_spot, limits_of, patterns_of};
    ghost use Rattle.pg_patterns.specs.Known.{positions_of, summary_of};

    /// Returns what is known at first: nothing.
    ///
    /// # Errors
    ///
    /// `Memory` if an allocation fails.
    pub fn new(alloc: Global, limits: Limits) -> Result<Known, Memory>
        ensures limits { IfOk result (λ known. limits_of known ≡ limits) }
        ensures expanded { IfOk result (λ known. expanded_of known ≡ 0) }
        ensures patterns { IfOk result (λ known. patterns_of known ≡ []) }
        ensures positions { IfOk result (λ known. (spot : Spot) → entry_at known spot ≡ None) }
    {
        Ok(Known {
            limits,
            expanded: 0,
            patterns: Vec::new(alloc),
            positions: HashMap::new(alloc),
            x_moves: Trie::new(alloc)?,
            x_waits: Trie::new(alloc)?,
            y_moves: Trie::new(alloc)?,
            y_waits: Trie::new(alloc)?,
        })
    }

    /// Returns what may be used.
    pub fn limits(&self) -> Limits
        ensures { result ≡ limits_of self.now }
    {
        self.limits
    }

    /// Returns how many positions are expanded: at most `limits.positions`.
    pub fn expanded(&self) -> u32
        ensures exact { result ≡ expanded_of self.now }
        ensures few { result ≤ (limits_of self.now).positions }
    {
        self.expanded
    }

    /// Returns how many patterns and positions are kept: at most `limits.entries`.
    pub fn entries(&self) -> usize
        ensures exact { result ≡ entries_of self.now }
        ensures few { result ≤ (limits_of self.now).entries }
    {
        self.patterns.len() + self.positions.len()
    }

    /// Tests whether there is room for no more patterns and positions.
    pub fn is_full(&self) -> bool
        ensures full { result ≡ true → (limits_of self.now).entries ≤ entries_of self.now }
        ensures room { result ≡ false → entries_of self.now < (limits_of self.now).entries }
        ensures small { result ≡ false → entries_of self.now < 2 ^ 32 }
    {
        self.patterns.len() + self.positions.len() >= self.limits.entries as usize
    }

    /// Counts one more expanded position, if one more is allowed. Returns whether it is.
    pub fn may_expand(&mut self) -> bool
        ensures allowed { IsTrue result ↔ (expanded_of self.old < (limits_of self.old).positions) }
        ensures counted { expanded_of self.new
            ≡ expanded_of self.old + (if result then 1 else 0) }
        ensures limits { limits_of self.new ≡ limits_of self.old }
        ensures patterns { patterns_of self.new ≡ patterns_of self.old }
        ensures positions { positions_of self.new ≡ positions_of self.old }
    {
        if self.expanded >= self.limits.positions {
            return false;
        }
        self.expanded += 1;
        true
    }

    /// Returns the pattern of the number, if there is one.
    pub fn pattern(&self, number: u32) -> Option<&Pattern>
        ensures { option_copied result ≡ slice_get (patterns_of self.now) number }
    {
        self.patterns.get(number as usize)
    }

    /// Returns the claimer of the pattern, if there is one of that number.
    pub fn claimer(&self, number: u32) -> Option<Side>
        ensures { result ≡ claimer_at self.now number }
    {
        match self.pattern(number) {
            Some(pattern) => Some(pattern.claimer),
            None => None,
        }
    }

    /// Returns the held points and the zone of an image, if there is a pattern of its number. No
    /// clause says which points they are.
    pub fn parts(&self, arena: &Arena, image: Image) -> Option<(SmallSet, SmallSet)>
        ensures { is_some result ≡ is_some (slice_get (patterns_of self.now) image.pattern) }
    {
        match self.pattern(image.pattern) {
            Some(pattern) => Some((
                arena.maps.image_of_set(image.map, pattern.held),
                arena.maps.image_of_set(image.map, pattern.zone),
            )),
            None => None,
        }
    }

    /// Adds the pattern to the table of its side and turn.
    fn put_in_trie(&mut self, alloc: Global, number: u32, pattern: &Pattern) -> Result<(), Memory>
        ensures limits { self.new.limits ≡ self.old.limits }
        ensures expanded { self.new.expanded ≡ self.old.expanded }
        ensures patterns { self.new.patterns ≡ self.old.patterns }
        ensures positions { self.new.positions ≡ self.old.positions }
    {
        let (held, zone) = (pattern.held, pattern.zone);
        match (pattern.claimer, pattern.moves) {
            (Side::X, true) => self.x_moves.put(alloc, held, zone, number),
            (Side::X, false) => self.x_waits.put(alloc, held, zone, number),
            (Side::Y, true) => self.y_moves.put(alloc, held, zone, number),
            (Side::Y, false) => self.y_waits.put(alloc, held, zone, number),
        }
    }

    /// Keeps the pattern and returns its number, or None exactly if there is no room.
    ///
    /// # Errors
    ///
    /// `Memory` if an allocation fails. A look-up may find the number then, of which there is no
    /// pattern.
    pub fn add(&mut self, alloc: Global, pattern: Pattern) -> Result<Option<u32>, Memory>
        ensures added { IfOk result
            (IsAdded pattern (patterns_of self.old) (patterns_of self.new)) }
        ensures room { IfOk result (λ number. IsSome number
            ↔ (entries_of self.old < (limits_of self.old).entries)) }
        ensures limits { limits_of self.new ≡ limits_of self.old }
        ensures expanded { expanded_of self.new ≡ expanded_of self.old }
        ensures positions { positions_of self.new ≡ positions_of self.old }
        ensures failed { OnErr result (patterns_of self.new ≡ patterns_of self.old) }
    {
        if self.is_full() {
            return Ok(None);
        }
        let number = self.patterns.len() as u32;
        self.put_in_trie(alloc, number, &pattern)?;
        self.patterns.push(pattern)?;
        Ok(Some(number))
    }

    /// Returns the numbers of at most `most` patterns of the claimer that fit the marks of the
    /// position; in them the claimer moves or waits, as `moves` says. No clause says which patterns
    /// are found.
    ///
    /// # Errors
    ///
    /// `Memory` if an allocation fails.
    pub fn find(
        &self,
        alloc: Global,
        claimer: Side,
        moves: bool,
        spot: &Spot,
        most: usize,
    ) -> Result<Vec<u32>, Memory>
        ensures { IfOk result (λ numbers. vec_len numbers ≤ most) }
    {
        let (mine, theirs) = (spot.points_of(claimer), spot.points_of(claimer.other()));
        match (claimer, moves) {
            (Side::X, true) => self.x_moves.find(alloc, mine, theirs, most),
            (Side::X, false) => self.x_waits.find(alloc, mine, theirs, most),
            (Side::Y, true) => self.y_moves.find(alloc, mine, theirs, most),
            (Side::Y, false) => self.y_waits.find(alloc, mine, theirs, most),
        }
    }

    /// Returns a summary of what is known of the position.
    pub fn glimpse(&self, spot: &Spot) -> Glimpse
        ensures { result ≡ summary_of (entry_at self.now spot.now) }
    {
        match self.positions.get(spot) {
            Some(Entry::Decided(number)) => Glimpse::Decided(*number),
            Some(Entry::Undecided(going)) => Glimpse::Undecided(going.numbers),
            None => Glimpse::Unmet,
        }
    }

    /// Forgets all positions, and keeps the patterns.
    pub fn forget_positions(&mut self, alloc: Global)
        ensures forgotten { (spot : Spot) → entry_at self.new spot ≡ None }
        ensures entries { entries_of self.new ≡ length (patterns_of self.old) }
        ensures limits { limits_of self.new ≡ limits_of self.old }
        ensures expanded { expanded_of self.new ≡ expanded_of self.old }
        ensures patterns { patterns_of self.new ≡ patterns_of self.old }
    {
        self.positions = HashMap::new(alloc);
    }

    /// Removes what is known of the position and returns it.
    pub fn take(&mut self, spot: &Spot) -> Option<Entry>
        ensures taken { result ≡ entry_at self.old spot.now }
        ensures left { (other : Spot) → entry_at self.new other
            ≡ (if is_same_spot spot.now other then None else entry_at self.old other) }
        ensures limits { limits_of self.new ≡ limits_of self.old }
        ensures expanded { expanded_of self.new ≡ expanded_of self.old }
        ensures patterns { patterns_of self.new ≡ patterns_of self.old }
    {
        self.positions.remove(spot)
    }

    /// Keeps what is known of the position, if there is room.
    ///
    /// # Errors
    ///
    /// `Memory` if an allocation fails; what is kept stays as it was.
    pub fn put(&mut self, spot: Spot, entry: Entry) -> Result<(), Memory>
        ensures kept { OnOk result (entries_of self.old < (limits_of self.old).entries
            → (other : Spot) → entry_at self.new other
            ≡ (if is_same_spot spot other then Some entry else entry_at self.old other)) }
        ensures full { (limits_of self.old).entries ≤ entries_of self.old
            → positions_of self.new ≡ positions_of self.old }
        ensures failed { OnErr result
            ((other : Spot) → entry_at self.new other ≡ entry_at self.old other) }
        ensures limits { limits_of self.new ≡ limits_of self.old }
        ensures expanded { expanded_of self.new ≡ expanded_of self.old }
        ensures patterns { patterns_of self.new ≡ patterns_of self.old }
    {
        if self.is_full() {
            return Ok(());
        }
        self.positions.insert(spot, entry)?;
        Ok(())
    }
}
