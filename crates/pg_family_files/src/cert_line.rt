//! What the lines of a connectivity game's certificate say.
ghost use Rattle.std.specs.Prelude.{◌≡◌, ◌≤◌, IfOk, option_map};
ghost use Rattle.pg_family_files.specs.Prelude.{All, list_any, has_one_slash, is_slash};
ghost use Rattle.pg_family_files.specs.Prelude.{before_slash, after_slash, Gives, each_of};
ghost use Rattle.pg_family_files.specs.SpanCertLine.{ascending, body_of, cut_first, first_edge};
ghost use Rattle.pg_family_files.specs.SpanCertLine.{head_of, number_in, parts_of, trees_of};
ghost use Rattle.pg_family_files.specs.declared.cert_limits.TheConstants.{MAX_SPAN_NUMBER};

use crate::cert_fault::Fault;
use crate::cert_limits::MAX_SPAN_NUMBER;
use pg_base::{PointSet, Points, Side};
use pg_span::SpanBody;
use pg_text::{LineError, Words, ascend, number};
use std::alloc::Global;

/// What a claim line says.
#[derive(Clone, Copy, Debug, PartialEq, Eq)]
pub(crate) struct Head {
    /// The side to move first.
    pub(crate) turn: Side,
    /// The side that wins.
    pub(crate) side: Side,
}

/// What a claim line says, if it has the form of one.
#[tactic(auto, unfolding(crate::specs::SpanCertLine::head_of))]
pub(crate) fn head_of(line: &[u8]) -> Option<Head>
    ensures { result ≡ head_of line.now }
{
    let mut words = Words::of(line);
    let name = words.next()?;
    let turn = words.next()?;
    let side = words.next()?;
    if words.next().is_some() || name != b"claim".as_slice() {
        return None;
    }
    let turn = Side::from_word(turn)?;
    let side = Side::from_word(side)?;
    Some(Head { turn, side })
}

/// The number of a word, if it is within the limit.
fn number_in(word: &[u8]) -> Result<u16, LineError<Fault>>
    ensures read { Gives (λ n. n) result (number_in word.now) }
    ensures small { IfOk result (λ n. n ≤ MAX_SPAN_NUMBER) }
{
    match number(word) {
        Some(n) => {
            if n <= u32::from(MAX_SPAN_NUMBER) {
                Ok(n as u16)
            } else {
                Err(LineError::Fault(Fault::Number))
            }
        }
        None => Err(LineError::Fault(Fault::Number)),
    }
}

/// Whether the word stands between the two sets.
fn is_slash(word: &[u8]) -> bool
    ensures { result ≡ is_slash word.now }
{
    word == b"/".as_slice()
}

/// Whether one of the words is that one.
fn has_slash(words: Words) -> bool
    ensures { result ≡ list_any is_slash words.entry }
{
    let mut rest = words;
    rest.any(|word| is_slash(word))
}

/// Whether just one of the words is that one.
fn has_one_slash(words: Words) -> bool
    ensures { result ≡ has_one_slash words.entry }
{
    let mut rest = words;
    while let Some(word) = rest.next() {
        if is_slash(word) {
            return !has_slash(rest);
        }
    }
    false
}

/// The word after `first`, where the words begin so, and the words of the two sets.
fn cut_first<'a>(words: Words<'a>) -> (Option<&'a [u8]>, Words<'a>)
    ensures first { option_map (λ w. w.now) result.0 ≡ (cut_first words.entry).first }
    ensures sets { result.1 ≡ (cut_first words.entry).sets }
{
    let mut others = words.again();
    match others.next() {
        Some(word) if word == b"first".as_slice() => {
            let first = others.next();
            (first, others)
        }
        _ => (None, words),
    }
}

/// The edge that the word after `first` names, where there is one.
fn first_edge(word: Option<&[u8]>) -> Result<Option<u16>, LineError<Fault>>
    ensures { Gives (λ v. v) result (first_edge (option_map (λ w. w.now) word.entry)) }
{
    match word {
        None => Ok(None),
        Some(word) => Ok(Some(number_in(word)?)),
    }
}

/// The numbers of the words before the slash, and the words after it.
fn numbers_before_slash<'a>(
    alloc: Global,
    words: Words<'a>,
) -> Result<(Vec<u16>, Words<'a>), LineError<Fault>>
    ensures read { Gives (λ p. p.0.items) result (each_of number_in (before_slash words.entry)) }
    ensures small { IfOk result (λ p. All (λ v. v ≤ MAX_SPAN_NUMBER) p.0.items) }
    ensures behind { IfOk result (λ p. p.1 ≡ after_slash words.entry) }
{
    let mut found = Vec::new(alloc);
    let mut rest = words;
    while let Some(word) = rest.next() {
        if is_slash(word) {
            return Ok((found, rest));
        }
        let n = number_in(word)?;
        found.push(n)?;
    }
    Ok((found, rest))
}

/// The numbers of the words.
fn numbers(alloc: Global, words: Words) -> Result<Vec<u16>, LineError<Fault>>
    ensures read { Gives (λ v. v.items) result (each_of number_in words.entry) }
    ensures small { IfOk result (λ v. All (λ n. n ≤ MAX_SPAN_NUMBER) v.items) }
{
    words.each(alloc, |word| number_in(word))
}

/// The set of these edges, if they ascend.
fn ascending(edges: &[u16]) -> Result<PointSet, LineError<Fault>>
    requires { All (λ v. v ≤ MAX_SPAN_NUMBER) edges.now }
    ensures { Gives (λ s. s) result (ascending edges.now) }
{
    if ascend(edges) {
        Ok(PointSet::from_points(edges))
    } else {
        Err(LineError::Fault(Fault::Number))
    }
}

/// The trees that the words after the first say: their form comes before their numbers.
fn trees_of(alloc: Global, words: Words) -> Result<SpanBody, LineError<Fault>>
    ensures { Gives (λ b. b) result (trees_of (cut_first words.entry)) }
{
    let (first, sets) = cut_first(words);
    if !has_one_slash(sets.again()) {
        return Err(LineError::Fault(Fault::Form));
    }
    let first = first_edge(first)?;
    let (edges, others) = numbers_before_slash(alloc, sets)?;
    let a1 = ascending(&edges)?;
    let edges = numbers(alloc, others)?;
    let a2 = ascending(&edges)?;
    Ok(SpanBody::Trees { first, a1, a2 })
}

/// The parts that the words after the first say.
fn parts_of(alloc: Global, words: Words) -> Result<SpanBody, LineError<Fault>>
    ensures { Gives (λ b. b) result (parts_of words.entry) }
{
    let parts = numbers(alloc, words)?;
    Ok(SpanBody::Parts(Points::from_vec(parts)))
}

/// The body that a line says.
#[tactic(auto, unfolding(crate::specs::SpanCertLine::body_of))]
pub(crate) fn body_of(alloc: Global, line: &[u8]) -> Result<SpanBody, LineError<Fault>>
    ensures { Gives (λ b. b) result (body_of line.now) }
{
    let mut words = Words::of(line);
    let Some(name) = words.next() else {
        return Err(LineError::Fault(Fault::Form));
    };
    if name == b"trees".as_slice() {
        trees_of(alloc, words)
    } else if name == b"parts".as_slice() {
        parts_of(alloc, words)
    } else {
        Err(LineError::Fault(Fault::Form))
    }
}
