//! A line of pairs that is in hand, cut short while it comes.

ghost use Rattle.std.specs.Prelude.{◌≡◌, ◌||◌, ◌<◌, ◌≤◌, ◌∷◌, [], List, ℕ, length, IfOk, IfSome};
ghost use Rattle.pg_cert_files.specs.Prelude.{contains, MAX_MEMBERS};
ghost use Rattle.pg_cert_files.specs.Shortening.{ArePairs, EndsInClash, EndsInExcess, EndsInMany};
ghost use Rattle.pg_cert_files.specs.Shortening.{EndsInPairs, IsFront, IsSpare, StandsShort};
ghost use Rattle.pg_cert_files.specs.Shortened.{HasBeenFed, IsFedShort};
ghost use Rattle.pg_cert_files.specs.Reader.{StandsFor};
ghost use Rattle.pg_cert_files.specs.Pieces.{IsFed};
ghost use Rattle.pg_cert_files.specs.declared.limits.TheConstants.{MAX_CERT_BYTES};

use crate::cert_state::CertReader;
use crate::limits::MAX_CERT_BYTES;
use crate::progress::Due;
use crate::reader::LineReader;
use pg_base::{BAR, MAX_MEMBERS, Memory, Pair, PointSet, SPACE};
use pg_cert_lines::first_pair;
use pg_text::cut_at;
use std::alloc::Global;

/// A line shorter than this is kept as it is.
pub const SHORT_LINE_BYTES: usize = 65_536;

/// The ends of a line between which something may be left out.
#[derive(Drop)]
pub struct Ends<'a> {
    /// The front of the line.
    pub kept: &'a [u8],
    /// Its end.
    pub rest: &'a [u8],
}

/// The pair that the first word says, and what stands after the word and a space.
#[tactic(auto, using(crate::proofs::PairWords::pair_first, crate::proofs::PairWords::pair_shorter))]
fn next_pair(text: &[u8]) -> Option<(Pair, &[u8])>
    ensures says { IfSome result (λ p. ArePairs text.now (p.0 ∷ []) p.1.now) }
    ensures shorter { IfSome result (λ p. length p.1.now < length text.now) }
    ensures small { IfSome result (λ p. (p.0.a < MAX_MEMBERS) × (p.0.b < MAX_MEMBERS)) }
{
    let (pair, others) = first_pair(text)?;
    Some((pair, others?))
}

/// Whether a point of the pair is in the set.
fn has_either(points: &PointSet, pair: Pair) -> bool
    requires a { pair.a < MAX_MEMBERS }
    requires b { pair.b < MAX_MEMBERS }
    ensures { result ≡ (contains points.now pair.a || contains points.now pair.b) }
{
    points.has(pair.a) || points.has(pair.b)
}

/// What stands after the first words where these are pairs of which two share a point.
fn behind_clash(text: &[u8]) -> Option<&[u8]>
    ensures { IfSome result (λ others. EndsInClash text.now others.now) }
{
    let mut points = PointSet::empty();
    let mut rest = text;
    while let Some((pair, others)) = next_pair(rest) {
        if has_either(&points, pair) {
            return Some(others);
        }
        points.put(pair.a);
        points.put(pair.b);
        rest = others;
    }
    None
}

/// Returns the text after the next words, if these are pairs and as many as there may be points.
#[tactic(auto, using(crate::proofs::PairWords::many_none, crate::proofs::PairWords::many_more))]
fn behind_many(text: &[u8]) -> Option<&[u8]>
    ensures { IfSome result (λ others. EndsInMany text.now MAX_MEMBERS others.now) }
{
    let mut rest = text;
    for _i in 0..MAX_MEMBERS {
        let (_pair, others) = next_pair(rest)?;
        rest = others;
    }
    Some(rest)
}

/// Returns the text after the first words, if these are pairs of which two share a point, and after
/// these two come as many as there may be points.
#[tactic(auto, using(crate::proofs::PairWords::excess_from))]
fn behind_excess(text: &[u8]) -> Option<&[u8]>
    ensures { IfSome result (λ others. EndsInExcess text.now others.now) }
{
    let mid = behind_clash(text)?;
    let others = behind_many(mid)?;
    Some(others)
}

/// What stands after the first words that are pairs.
#[tactic(auto, using(crate::proofs::PairWords::pairs_none, crate::proofs::PairWords::pairs_more))]
fn behind_pairs(text: &[u8]) -> &[u8]
    ensures { EndsInPairs text.now result.now }
{
    let mut rest = text;
    while let Some((_pair, others)) = next_pair(rest) {
        rest = others;
    }
    rest
}

/// The words of the line's body, if it is one of pairs.
fn pair_words(line: &[u8]) -> Option<&[u8]>
    ensures { IfSome result (λ words. IsFront line.now words.now) }
{
    let (_, behind_x) = cut_at(BAR, line)?;
    let (_, behind_y) = cut_at(BAR, behind_x)?;
    let (_, body) = cut_at(BAR, behind_y)?;
    let (name, words) = cut_at(SPACE, body)?;
    if name != b"pairs".as_slice() {
        return None;
    }
    Some(words)
}

/// The line without pairs that no certificate needs, if it has any.
#[tactic(auto, using(crate::proofs::ShortLines::spare_is))]
pub fn spare(line: &[u8]) -> Option<Ends<'_>>
    ensures { IfSome result (λ s. IsSpare line.now s.kept.now s.rest.now) }
{
    let words = pair_words(line)?;
    if cut_at(BAR, words).is_some() {
        return None;
    }
    let others = behind_excess(words)?;
    let rest = behind_pairs(others);
    let kept = &line[..line.len() - others.len()];
    Some(Ends { kept, rest })
}

impl LineReader {
    /// Leaves out of the line in hand what no certificate needs.
    fn shorten(&mut self, alloc: Global) -> Result<(), Memory>
        ensures count { self.new.count ≡ self.old.count }
        ensures fewer { length self.new.pending.items ≤ length self.old.pending.items }
        ensures short { IfOk result
            (λ _. (text : List ℕ) → StandsFor self.old text → StandsShort self.old self.new text) }
    {
        if self.fault.is_some() {
            return Ok(());
        }
        let Due::Node(_) = self.progress.due else {
            return Ok(());
        };
        let Some(ends) = spare(&self.pending) else {
            return Ok(());
        };
        let mut short = Vec::new(alloc);
        short.extend_from_slice(ends.kept)?;
        short.extend_from_slice(ends.rest)?;
        self.pending = short;
        Ok(())
    }
}

impl CertReader {
    /// Cuts the line in hand short.
    fn cut_line(&mut self, alloc: Global) -> Result<(), Memory>
        requires fed { HasBeenFed self.old }
        requires small { self.old.size ≤ MAX_CERT_BYTES }
        ensures { IfOk result
            (λ _. (text : List ℕ) → IsFed self.old text → IsFedShort self.new text) }
    {
        let before = self.lines.pending.len();
        self.lines.shorten(alloc)?;
        let after = self.lines.pending.len();
        self.size -= before - after;
        self.wait = after.saturating_mul(2);
        Ok(())
    }

    /// Cuts the line in hand short, if it is long and has pairs that no certificate needs: those
    /// after two that share a point and 1,024 more. The reader is then as if it had been fed a text
    /// that is like this one.
    ///
    /// A line that stayed long is looked at again when it has twice that length.
    pub fn shorten(&mut self, alloc: Global) -> Result<(), Memory>
        requires { HasBeenFed self.old }
        ensures { IfOk result
            (λ _. (text : List ℕ) → IsFed self.old text → IsFedShort self.new text) }
    {
        let length = self.lines.pending.len();
        if self.size > MAX_CERT_BYTES {
            return Ok(());
        }
        if length < SHORT_LINE_BYTES {
            self.wait = SHORT_LINE_BYTES;
            return Ok(());
        }
        if length < self.wait {
            return Ok(());
        }
        self.cut_line(alloc)
    }
}
