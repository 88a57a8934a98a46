//! The numbers of the command line.
ghost use Rattle.std.specs.Prelude.{◌≡◌};
ghost use Rattle.pg_words.specs.Numbers.{is_long_numeral, number_in, seed_of};

use pg_gen::MAX_SEED;
use pg_text::{is_digits, number};

/// The number in this range that a word spells.
pub(crate) fn number_in(least: u32, most: u32, word: &str) -> Option<u32>
    ensures { result ≡ number_in least most word.now }
{
    let n = number(word.as_bytes())?;
    if least <= n && n <= most {
        Some(n)
    } else {
        None
    }
}

/// Whether the word has one to ten digits, the first of several not 0.
fn is_long_numeral(word: &[u8]) -> bool
    ensures { result ≡ is_long_numeral word.now }
{
    if word.is_empty() || word.len() > 10 || !is_digits(word) {
        return false;
    }
    word.len() == 1 || word[0] != b'0'
}

/// The seed that a word spells, below 2^31.
pub(crate) fn seed(word: &str) -> Option<u32>
    ensures { result ≡ seed_of word.now }
{
    if !is_long_numeral(word.as_bytes()) {
        return None;
    }
    let seed = word.parse::<u32>().ok()?;
    if seed <= MAX_SEED { Some(seed) } else { None }
}
