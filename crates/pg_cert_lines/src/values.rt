//! The numbers of a node line.

ghost use Rattle.std.specs.Prelude.{◌≡◌, ◌<◌, map, IfOk, IfSome, option_map};
ghost use Rattle.pg_cert_lines.specs.Prelude.{empty, All, number, parts, words_of};
ghost use Rattle.pg_cert_lines.specs.Prelude.{ascend_from, MAX_MEMBERS, SPACE, Gives, each_of};
ghost use Rattle.pg_cert_lines.specs.declared.signs.TheConstants.{COLON, HYPHEN};
ghost use Rattle.pg_cert_lines.specs.NodeLine.{below, point_of, child_of, ascending_of};
ghost use Rattle.pg_cert_lines.specs.NodeLine.{field_words, word_reply, word_pair, begins_with_e};
ghost use Rattle.pg_cert_lines.specs.NodeLine.{after_e, before_slash, after_slash, edges_of};
ghost use Rattle.pg_cert_lines.specs.Numerals.{SaysFirst};
ghost use Rattle.pg_cert_lines.specs.Outline.{IsFirstPoint, formed_each, formed_replies};
ghost use Rattle.pg_cert_lines.specs.Outline.{gathered_from};

use crate::fault::Fault;
use crate::form::{each_has_one, is_slash};
use crate::numerals::{first_number, two_numbers};
use crate::signs::{COLON, HYPHEN};
use pg_base::{MAX_MEMBERS, Pair, PointSet};
use pg_cert::{EdgeSet, MAX_CLAIM_NODES, Reply};
use pg_text::{LineError, Words, ascend, first_word, number, two_parts};
use std::alloc::Global;

/// Two sets of edges.
#[derive(Debug, Drop)]
pub(crate) struct Edges {
    /// Whether the first set holds the further edge.
    pub(crate) with_e: bool,
    /// The edges of the first set, apart from that one.
    pub(crate) first: EdgeSet,
    /// The edges of the second set.
    pub(crate) second: EdgeSet,
}

/// The number of a word, if it is below the limit.
fn below(limit: u32, word: &[u8]) -> Result<u32, LineError<Fault>>
    ensures read { Gives (λ n. n) result (below limit (number word.now)) }
    ensures small { IfOk result (λ n. n < limit) }
{
    match number(word) {
        Some(n) if n < limit => Ok(n),
        _ => Err(LineError::Fault(Fault::Number)),
    }
}

/// The point that a word names.
pub(crate) fn point(word: &[u8]) -> Result<u16, LineError<Fault>>
    ensures read { Gives (λ p. p) result (point_of word.now) }
    ensures small { IfOk result (λ p. p < MAX_MEMBERS) }
{
    let n = below(u32::from(MAX_MEMBERS), word)?;
    Ok(n as u16)
}

/// The number of the node that a word names.
pub(crate) fn child(word: &[u8]) -> Result<u32, LineError<Fault>>
    ensures { Gives (λ j. j) result (child_of word.now) }
{
    below(MAX_CLAIM_NODES, word)
}

/// The points that the words name.
pub(crate) fn points(alloc: Global, words: Words) -> Result<Vec<u16>, LineError<Fault>>
    ensures read { Gives (λ v. v.items) result (each_of point_of words.entry) }
    ensures small { IfOk result (λ v. All (λ p. p < MAX_MEMBERS) v.items) }
{
    words.each(alloc, |word| point(word))
}

/// The points that the words name, if they ascend.
fn ascending(alloc: Global, words: Words) -> Result<Vec<u16>, LineError<Fault>>
    ensures read { Gives (λ v. v.items) result (ascending_of words.entry) }
    ensures small { IfOk result (λ v. All (λ p. p < MAX_MEMBERS) v.items) }
{
    let found = points(alloc, words)?;
    if ascend(&found) {
        Ok(found)
    } else {
        Err(LineError::Fault(Fault::Number))
    }
}

/// The text of a field's words, if it has any.
fn field_text(field: &[u8]) -> Option<&[u8]>
    ensures { words_of (option_map (λ w. w.now) result) ≡ field_words field.now }
{
    if field.is_empty() { None } else { Some(field) }
}

/// The words of a text, and none of no text.
pub(crate) fn words_in(text: Option<&[u8]>) -> Words
    ensures { result ≡ words_of (option_map (λ w. w.now) text.entry) }
{
    match text {
        Some(text) => Words::of(text),
        None => Words::none(),
    }
}

/// The point that the first word names, and the text of the other words if there are any.
fn first_point(text: &[u8]) -> Result<(u16, Option<&[u8]>), LineError<Fault>>
    ensures { IsFirstPoint result (parts SPACE text.now) }
{
    if let Some((n, others)) = first_number(text) {
        if n < u32::from(MAX_MEMBERS) {
            return Ok((n as u16, others));
        }
    }
    let (word, others) = first_word(text);
    let p = point(word)?;
    Ok((p, others))
}

/// The points of a field as a set, if they ascend and none of them is in the other set.
#[tactic(auto, using(crate::proofs::Outlines::point_is_taken))]
pub(crate) fn set_apart(other: &PointSet, field: &[u8]) -> Result<PointSet, LineError<Fault>>
    ensures { Gives (λ s. s) result (gathered_from other.now empty 0 (field_words field.now)) }
{
    let mut found = PointSet::empty();
    let mut least = 0;
    let mut rest = field_text(field);
    while let Some(text) = rest {
        let (p, others) = first_point(text)?;
        if p < least || other.has(p) {
            return Err(LineError::Fault(Fault::Number));
        }
        found.put(p);
        least = p + 1;
        rest = others;
    }
    Ok(found)
}

/// The reply that a word says.
fn reply(word: &[u8]) -> Result<Reply, LineError<Fault>>
    ensures { Gives (λ r. r) result (word_reply word.now) }
{
    let Some((first, second)) = two_parts(COLON, word) else {
        return Err(LineError::Fault(Fault::Number));
    };
    let point = point(first)?;
    let child = child(second)?;
    Ok(Reply { point, child })
}

/// The pair that a word says.
fn pair(word: &[u8]) -> Result<Pair, LineError<Fault>>
    ensures { Gives (λ p. p) result (word_pair word.now) }
{
    let Some((first, second)) = two_parts(HYPHEN, word) else {
        return Err(LineError::Fault(Fault::Number));
    };
    let a = point(first)?;
    let b = point(second)?;
    Ok(Pair { a, b })
}

/// The pair that the first word says, if it is two points with a sign between them, and the text of
/// the other words.
#[tactic(auto, using(crate::proofs::Outlines::says_pair))]
pub fn first_pair(text: &[u8]) -> Option<(Pair, Option<&[u8]>)>
    ensures says { IfSome result
        (λ p. SaysFirst HYPHEN word_pair text.now p.0 (option_map (λ w. w.now) p.1)) }
    ensures small { IfSome result (λ p. (p.0.a < MAX_MEMBERS) × (p.0.b < MAX_MEMBERS)) }
{
    let (a, b, others) = two_numbers(HYPHEN, text)?;
    let limit = u32::from(MAX_MEMBERS);
    if a >= limit || b >= limit {
        return None;
    }
    let pair = Pair {
        a: a as u16,
        b: b as u16,
    };
    Some((pair, others))
}

/// The pairs that the words say, each read word by word.
fn pairs_by_word(alloc: Global, words: Words) -> Result<Vec<Pair>, LineError<Fault>>
    ensures { Gives (λ v. v.items) result (formed_each HYPHEN word_pair words.entry) }
{
    if !each_has_one(HYPHEN, words.again()) {
        return Err(LineError::Fault(Fault::Form));
    }
    words.each(alloc, |word| pair(word))
}

/// The pairs that the words of the text say. Where one isn't a pair of points, its fault is found
/// word by word.
pub(crate) fn pairs(alloc: Global, text: Option<&[u8]>) -> Result<Vec<Pair>, LineError<Fault>>
    ensures { Gives (λ v. v.items) result
        (formed_each HYPHEN word_pair (words_of (option_map (λ w. w.now) text.entry))) }
{
    let mut found = Vec::new(alloc);
    let mut rest = text;
    while let Some(words) = rest {
        let Some((pair, others)) = first_pair(words) else {
            return pairs_by_word(alloc, words_in(text));
        };
        found.push(pair)?;
        rest = others;
    }
    Ok(found)
}

/// The reply that the first word says, if it is a point and a child with a sign between them, and
/// the text of the other words.
#[tactic(auto, using(crate::proofs::Outlines::says_reply))]
fn first_reply(text: &[u8]) -> Option<(Reply, Option<&[u8]>)>
    ensures { IfSome result
        (λ r. SaysFirst COLON word_reply text.now r.0 (option_map (λ w. w.now) r.1)) }
{
    let (point, child, others) = two_numbers(COLON, text)?;
    if point >= u32::from(MAX_MEMBERS) || child >= MAX_CLAIM_NODES {
        return None;
    }
    let reply = Reply {
        point: point as u16,
        child,
    };
    Some((reply, others))
}

/// The replies that the words say, each read word by word.
fn replies_by_word(alloc: Global, words: Words) -> Result<Vec<Reply>, LineError<Fault>>
    ensures { Gives (λ v. v.items) result (formed_each COLON word_reply words.entry) }
{
    if !each_has_one(COLON, words.again()) {
        return Err(LineError::Fault(Fault::Form));
    }
    words.each(alloc, |word| reply(word))
}

/// The replies that the words of the text say. Where one isn't a reply, its fault is found word by
/// word.
fn reply_list(alloc: Global, text: Option<&[u8]>) -> Result<Vec<Reply>, LineError<Fault>>
    ensures { Gives (λ v. v.items) result
        (formed_each COLON word_reply (words_of (option_map (λ w. w.now) text.entry))) }
{
    let mut found = Vec::new(alloc);
    let mut rest = text;
    while let Some(words) = rest {
        let Some((reply, others)) = first_reply(words) else {
            return replies_by_word(alloc, words_in(text));
        };
        found.push(reply)?;
        rest = others;
    }
    Ok(found)
}

/// Whether the points of the replies ascend.
fn replies_ascend(replies: &[Reply]) -> bool
    ensures { result ≡ ascend_from 0 (map (λ r. r.point) replies.now) }
{
    replies.is_sorted_by(|a, b| a.point < b.point)
}

/// The replies that the words of the text say, if their points ascend.
pub(crate) fn replies(alloc: Global, text: Option<&[u8]>) -> Result<Vec<Reply>, LineError<Fault>>
    ensures { Gives (λ v. v.items) result
        (formed_replies (words_of (option_map (λ w. w.now) text.entry))) }
{
    let found = reply_list(alloc, text)?;
    if replies_ascend(&found) {
        Ok(found)
    } else {
        Err(LineError::Fault(Fault::Number))
    }
}

/// Whether the first word is that one, and the words after it.
fn after_e<'a>(words: Words<'a>) -> (bool, Words<'a>)
    ensures begins { result.0 ≡ begins_with_e words.entry }
    ensures behind { result.1 ≡ after_e words.entry }
{
    let mut others = words.again();
    match others.next() {
        Some(word) if word == b"e".as_slice() => (true, others),
        _ => (false, words),
    }
}

/// The points that the words before the slash name, and the words after it.
fn points_before_slash<'a>(
    alloc: Global,
    words: Words<'a>,
) -> Result<(Vec<u16>, Words<'a>), LineError<Fault>>
    ensures read { Gives (λ p. p.0.items) result (each_of point_of (before_slash words.entry)) }
    ensures small { IfOk result (λ p. All (λ v. v < MAX_MEMBERS) p.0.items) }
    ensures behind { IfOk result (λ p. p.1 ≡ after_slash words.entry) }
{
    let mut found = Vec::new(alloc);
    let mut rest = words;
    while let Some(word) = rest.next() {
        if is_slash(word) {
            return Ok((found, rest));
        }
        let p = point(word)?;
        found.push(p)?;
    }
    Ok((found, rest))
}

/// The two sets of edges that the words say.
pub(crate) fn two_sets(alloc: Global, words: Words) -> Result<Edges, LineError<Fault>>
    ensures { Gives (λ e. e) result (edges_of words.entry) }
{
    let (with_e, sets) = after_e(words);
    let (first, others) = points_before_slash(alloc, sets)?;
    if !ascend(&first) {
        return Err(LineError::Fault(Fault::Number));
    }
    let second = ascending(alloc, others)?;
    Ok(Edges {
        with_e,
        first: EdgeSet::new(alloc, PointSet::from_points(&first))?,
        second: EdgeSet::new(alloc, PointSet::from_points(&second))?,
    })
}
