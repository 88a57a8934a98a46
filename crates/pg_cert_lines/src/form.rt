//! The form of a node line, save for its numbers.

ghost use Rattle.std.specs.Prelude.{◌≡◌, ◌==◌, ◌++◌, ◌∷◌, IfSome, IfNone, option_map};
ghost use Rattle.pg_cert_lines.specs.Prelude.{list_any, two_parts, four_parts, pair_of, words_of};
ghost use Rattle.pg_cert_lines.specs.Prelude.{BAR, Lacks};
ghost use Rattle.pg_cert_lines.specs.Form.{named_form, form_of, are_none, only_word, are_odd};
ghost use Rattle.pg_cert_lines.specs.Form.{each_has_one, is_slash, has_one_slash};
ghost use Rattle.pg_cert_lines.specs.Outline.{outline_of};

use crate::turn::{Turn, turn_of};
use pg_cert::Version;
use pg_text::{Words, cut_at, first_word, two_parts};

/// The nine bodies of a node line.
#[derive(Clone, Copy, Debug, PartialEq, Eq)]
pub enum Form {
    /// `over`.
    Over,
    /// `move`: a point and a child.
    Move,
    /// `all`: points, each with a child.
    All,
    /// `pairs`: pairs of points.
    Pairs,
    /// `potential`.
    Potential,
    /// `trees`: two sets of edges.
    Trees,
    /// `cuts`: two sets of edges.
    Cuts,
    /// `threat`: an odd number of points.
    Threat,
    /// `weaker`: a child. It stands in version 2 alone.
    Weaker,
}

/// A node line, cut where its signs stand.
#[derive(Drop)]
pub struct Outline<'a> {
    /// The field of X's points.
    pub x: &'a [u8],
    /// The field of Y's points.
    pub y: &'a [u8],
    /// The side to move, and how many points it still claims.
    pub turn: Turn,
    /// Which body it has.
    pub form: Form,
    /// The text of the words after the first of the body, if there are any.
    pub words: Option<&'a [u8]>,
}

/// The body that a word begins.
fn named_form(word: &[u8]) -> Option<Form>
    ensures { result ≡ named_form word.now }
{
    if word == b"over".as_slice() {
        Some(Form::Over)
    } else if word == b"move".as_slice() {
        Some(Form::Move)
    } else if word == b"all".as_slice() {
        Some(Form::All)
    } else if word == b"pairs".as_slice() {
        Some(Form::Pairs)
    } else if word == b"potential".as_slice() {
        Some(Form::Potential)
    } else if word == b"trees".as_slice() {
        Some(Form::Trees)
    } else if word == b"cuts".as_slice() {
        Some(Form::Cuts)
    } else if word == b"threat".as_slice() {
        Some(Form::Threat)
    } else if word == b"weaker".as_slice() {
        Some(Form::Weaker)
    } else {
        None
    }
}

/// The body of the version that a word begins: `weaker` stands in version 2 alone.
fn form_of(version: Version, word: &[u8]) -> Option<Form>
    ensures { result ≡ form_of version word.now }
{
    match (version, named_form(word)?) {
        (Version::One, Form::Weaker) => None,
        (_, form) => Some(form),
    }
}

/// Whether the word stands between two sets of edges.
pub(crate) fn is_slash(word: &[u8]) -> bool
    ensures { result ≡ is_slash word.now }
{
    word == b"/".as_slice()
}

/// Whether there is no word.
pub(crate) fn are_none(words: Words) -> bool
    ensures { result ≡ are_none words.entry }
{
    let mut rest = words;
    rest.next().is_none()
}

/// The word, if there is just one.
pub(crate) fn only_word<'a>(words: Words<'a>) -> Option<&'a [u8]>
    ensures { option_map (λ w. w.now) result ≡ only_word words.entry }
{
    let mut rest = words;
    let word = rest.next()?;
    if rest.next().is_some() {
        return None;
    }
    Some(word)
}

/// The two words, if there are just two.
pub(crate) fn two<'a>(words: Words<'a>) -> Option<(&'a [u8], &'a [u8])>
    ensures { option_map (λ p. (p.0.now, p.1.now)) result ≡ pair_of words.entry }
{
    let mut rest = words;
    let first = rest.next()?;
    let second = rest.next()?;
    if rest.next().is_some() {
        return None;
    }
    Some((first, second))
}

/// Whether the number of words is odd.
pub(crate) fn are_odd(words: Words) -> bool
    ensures { result ≡ are_odd words.entry }
{
    let mut odd = false;
    for _word in words {
        odd = !odd;
    }
    odd
}

/// Whether each word has the sign just once.
pub(crate) fn each_has_one(sign: u8, words: Words) -> bool
    ensures { result ≡ each_has_one sign words.entry }
{
    let mut rest = words;
    rest.all(|word| two_parts(sign, word).is_some())
}

/// Whether one of the words is the one between two sets of edges.
fn has_slash(words: Words) -> bool
    ensures { result ≡ list_any is_slash words.entry }
{
    let mut rest = words;
    rest.any(|word| is_slash(word))
}

/// Whether just one of the words is that one.
pub(crate) fn has_one_slash(words: Words) -> bool
    ensures { result ≡ has_one_slash words.entry }
{
    let mut rest = words;
    while let Some(word) = rest.next() {
        if is_slash(word) {
            return !has_slash(rest);
        }
    }
    false
}

/// What stands before the first sign, and what after it, at once where the sign is the second byte.
#[tactic(auto, using(crate::proofs::NearCuts::near_found))]
fn cut_near(sign: u8, text: &[u8]) -> Option<(&[u8], &[u8])>
    ensures found { IfSome result
        (λ p. (text.now ≡ p.0.now ++ sign ∷ p.1.now) × Lacks sign p.0.now) }
    ensures none { IfNone result (Lacks sign text.now) }
{
    if text.len() > 1 && text[0] != sign && text[1] == sign {
        return Some((&text[..1], &text[2..]));
    }
    cut_at(sign, text)
}

/// What stands on both sides of the one sign, which may well be the second byte.
fn two_near(sign: u8, text: &[u8]) -> Option<(&[u8], &[u8])>
    ensures { option_map (λ p. (p.0.now, p.1.now)) result ≡ two_parts sign text.now }
{
    let Some((first, second)) = cut_near(sign, text) else {
        return None;
    };
    match cut_at(sign, second) {
        Some(_) => None,
        None => Some((first, second)),
    }
}

/// The four fields of a node line, of which the third has one byte or two.
fn fields_of(line: &[u8]) -> Option<(&[u8], &[u8], &[u8], &[u8])>
    ensures { option_map (λ p. record {
      first = p.0.now;
      second = p.1.now;
      third = p.2.now;
      fourth = p.3.now;
    }) result ≡ four_parts BAR line.now }
{
    let (x, behind) = cut_at(b'|', line)?;
    let (y, others) = cut_at(b'|', behind)?;
    let (turn, body) = two_near(b'|', others)?;
    Some((x, y, turn, body))
}

/// The outline of a line in the version: its fields and its body's words, whose form isn't tested
/// yet.
#[tactic(auto, unfolding(crate::specs::Outline::outline_of))]
pub(crate) fn outline_of(version: Version, line: &[u8]) -> Option<Outline>
    ensures { option_map (λ s. record {
      x = s.x.now;
      y = s.y.now;
      turn = s.turn;
      form = s.form;
      words = words_of (option_map (λ w. w.now) s.words);
    }) result ≡ outline_of version line.now }
{
    let (x, y, turn, body) = fields_of(line)?;
    let turn = turn_of(turn)?;
    let (name, words) = first_word(body);
    let form = form_of(version, name)?;
    Some(Outline {
        x,
        y,
        turn,
        form,
        words,
    })
}
