//! Numbers in decimal digits.
ghost use Rattle.std.specs.Prelude.{◌≡◌, ◌≤◌, length, IsTrue, map, IfOk, option_map};
ghost use Rattle.pg_text.specs.Prelude.{is_ascii_digit, list_all, digits_value};
ghost use Rattle.pg_text.specs.Text.{number, numbers};

use std::alloc::{AllocError, Global};

/// The greatest number of digits of a number.
pub const MAX_DIGITS: usize = 9;

/// Whether each byte is a decimal digit.
pub fn is_digits(word: &[u8]) -> bool
    ensures { result ≡ list_all is_ascii_digit word.now }
{
    word.iter().all(|b| b.is_ascii_digit())
}

/// The number that the digits write.
#[tactic(auto, using(crate::proofs::Digits::value_steps))]
fn value(word: &[u8]) -> u32
    requires digits { IsTrue (list_all is_ascii_digit word.now) }
    requires few { length word.now ≤ MAX_DIGITS }
    ensures { result ≡ digits_value 10 word.now }
{
    let mut found = 0;
    for b in word {
        found = found * 10 + u32::from(*b - b'0');
    }
    found
}

/// The number that a word spells: one to nine digits, the first of several not 0.
#[tactic(auto, unfolding(crate::specs::Text::number))]
pub fn number(word: &[u8]) -> Option<u32>
    ensures { result ≡ number word.now }
{
    if word.is_empty() || word.len() > MAX_DIGITS || !is_digits(word) {
        return None;
    }
    if word.len() > 1 && word[0] == b'0' {
        return None;
    }
    Some(value(word))
}

/// The numbers that the words spell, if each spells one.
#[tactic(auto, unfolding(crate::specs::Text::numbers))]
pub fn number_list(alloc: Global, words: &[&[u8]]) -> Result<Option<Vec<u32>>, AllocError>
    ensures { IfOk result
        (λ found. option_map (λ v. v.items) found ≡ numbers (map (λ w. w.now) words.now)) }
{
    let mut found = Vec::with_capacity(alloc, words.len())?;
    for word in words {
        match number(word) {
            None => return Ok(None),
            Some(n) => found.push(n)?,
        }
    }
    Ok(Some(found))
}
