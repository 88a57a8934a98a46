//! A cache of recent answers of the matching.
ghost use Rattle.std.specs.Prelude.{◌≡◌, ◌≤◌, ◌<◌, [], None, Some, IfOk, OnErr, MatchOption};
ghost use Rattle.std.specs.Prelude.{length};
ghost use Rattle.std.specs.Map.{lookup};
ghost use Rattle.pg_match.specs.Private.{CanMatch, IsMatching, HasPointsBelow, told};
ghost use Rattle.pg_match.specs.Cache.{Fits, IsAfterAsk, Answers, Keeps, same_asked};

use crate::matching::{Matching, private_pairs};
use lru::LruCache;
use pg_base::{Lines, Memory, PointSet};
use std::alloc::Global;
use std::hash::{Hash, Hasher};
use std::marker::Model;
use std::num::NonZeroUsize;

/// The most answers that a cache may be asked to keep.
pub const MAX_CACHED_ANSWERS: u32 = 65_536;

/// What the matching is asked: the wanted lines and the free points.
#[derive(Debug, Drop)]
struct Question {
    wanted: Vec<u32>,
    free: PointSet,
}

impl Model for Question {
    ghost use Rattle.pg_match.specs.Cache.{Asked, asked_code};

    ghost Value = { Asked };

    ghost coded = { asked_code };

    ghost view = { λ q. record { wanted = q.wanted.items; free = q.free } };
}

impl PartialEq for Question {
    ghost use Rattle.pg_match.specs.Cache.{same_asked, same_asked-partial};

    ghost eq = { same_asked };

    ghost laws = { same_asked-partial };

    fn eq(&self, other: &Question) -> bool {
        self.free == other.free && self.wanted == other.wanted
    }
}

impl Eq for Question {
    ghost use Rattle.pg_match.specs.Cache.{same_asked-equivalence};

    ghost laws = { same_asked-equivalence };
}

/// Only the free points are hashed: questions of one game with the same free points seldom differ.
impl Hash for Question {
    ghost use Rattle.pg_match.specs.Cache.{hash_input, hash_input-respects};

    ghost hash_input = { hash_input };

    ghost respects_eq = { hash_input-respects };

    fn hash<H: Hasher>(&self, state: &mut H) {
        self.free.hash(state);
    }
}

/// The same answer once more.
fn copy_of(alloc: Global, answer: &Matching) -> Result<Matching, Memory>
    ensures { IfOk result (λ copy. told copy ≡ told answer.now) }
{
    match answer {
        Matching::Pairs(pairs) => Ok(Matching::Pairs(pairs.to_vec(alloc)?)),
        Matching::Short(family) => Ok(Matching::Short(family.to_vec(alloc)?)),
    }
}

/// Recent answers of the matching for one list of lines: those to the questions that were asked
/// last.
#[derive(Debug, Drop)]
pub struct PairCache {
    kept: LruCache<Question, Matching>,
    hits: u64,
}

/// Its capacity, how often it had the answer, and what it keeps, the most recent first.
impl Model for PairCache {
    ghost use Rattle.std.specs.Prelude.{◌≤◌, map, length};
    ghost use Rattle.pg_match.specs.Cache.{Cache, kept_of, cache_code};

    ghost Value = { Cache };

    ghost coded = { cache_code };

    ghost view = { λ c. record {
      capacity = c.kept.cap;
      hits = c.hits;
      kept = map kept_of c.kept.entries;
    } };

    ghost invariant = { λ c. (1 ≤ c.kept.cap) × (length c.kept.entries ≤ c.kept.cap) };
}

impl PairCache {
    /// A cache that keeps so many answers at most, 1 to `MAX_CACHED_ANSWERS`, and none yet.
    ///
    /// # Errors
    ///
    /// `Memory` where no memory is found.
    pub fn new(alloc: Global, capacity: u32) -> Result<PairCache, Memory>
        requires some { 1 ≤ capacity }
        requires few { capacity ≤ MAX_CACHED_ANSWERS }
        ensures { IfOk result (λ cache. cache ≡ record {
          capacity = capacity;
          hits = 0;
          kept = [];
        }) }
    {
        let Some(room) = NonZeroUsize::new(capacity as usize) else {
            unreachable!()
        };
        Ok(PairCache {
            kept: LruCache::new(alloc, room)?,
            hits: 0,
        })
    }

    /// How many asks it had the answer to. What it keeps is never more than its capacity.
    pub fn hits(&self) -> u64
        ensures hits { result ≡ self.now.hits }
        ensures room { length self.now.kept ≤ self.now.capacity }
    {
        self.hits
    }
}

/// The kept answer to the question, copied; None where none is kept.
fn look_up(
    alloc: Global,
    kept: &LruCache<Question, Matching>,
    asked: &Question,
) -> Result<Option<Matching>, Memory>
    ensures { IfOk result
        (λ found. MatchOption found (lookup (same_asked asked.now) kept.now.entries ≡ None)
        (Answers kept.now.entries asked.now)) }
{
    match kept.peek(asked) {
        Some(answer) => Ok(Some(copy_of(alloc, answer)?)),
        None => Ok(None),
    }
}

/// Keeps a copy of the answer, where there is memory for it.
fn keep(alloc: Global, kept: &mut LruCache<Question, Matching>, asked: Question, answer: &Matching)
    ensures { Keeps kept.old kept.new asked answer.now }
{
    if let Ok(copy) = copy_of(alloc, answer) {
        let _ = kept.put(asked, copy);
    }
}

impl PairCache {
    /// The answer of `private_pairs`, from the cache where it keeps it: then that answer comes to
    /// the front and counts as a hit. Otherwise it is kept in front, if there is memory for it, and
    /// the least recent one goes where there was no room.
    ///
    /// # Errors
    ///
    /// `Memory` where none is found for the answer itself; the cache stays as it was.
    pub fn ask(
        &mut self,
        alloc: Global,
        lines: &Lines,
        wanted: &[u32],
        free: &PointSet,
    ) -> Result<Matching, Memory>
        requires can { CanMatch lines.now wanted.now }
        requires fits { Fits self.old lines.now }
        ensures answer { IfOk result (IsMatching lines.now wanted.now free.now) }
        ensures range { IfOk result (λ found. HasPointsBelow (told found)) }
        ensures fits { Fits self.new lines.now }
        ensures after { IfOk result (λ found. IsAfterAsk self.old self.new (record {
          asked = record { wanted = wanted.now; free = free.now };
          answer = told found;
        })) }
        ensures memory { OnErr result (self.new ≡ self.old) }
    {
        let asked = Question {
            wanted: wanted.to_vec(alloc)?,
            free: *free,
        };
        if let Some(answer) = look_up(alloc, &self.kept, &asked)? {
            self.kept.promote(&asked);
            self.hits = self.hits.saturating_add(1);
            return Ok(answer);
        }
        let answer = private_pairs(alloc, lines, wanted, free)?;
        keep(alloc, &mut self.kept, asked, &answer);
        Ok(answer)
    }
}
