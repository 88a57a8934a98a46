//! The bytes and words of a line.
ghost use Rattle.std.specs.Prelude.{◌≡◌, ◌==◌, ◌||◌, not, true, map, length, [], ◌∷◌, IfNone};
ghost use Rattle.std.specs.Prelude.{IfSome, is_none};
ghost use Rattle.pg_files.specs.Prelude.{list_all, numbers, ones};
ghost use Rattle.pg_files.specs.GameFile.{is_header, is_printable, begins_comment};

use pg_base::SPACE;
use pg_text::number;

/// Whether each byte may stand in a line.
pub fn is_printable(line: &[u8]) -> bool
    ensures { result ≡ list_all is_printable line.now }
{
    line.iter().all(|b| SPACE <= *b && *b <= 126)
}

/// Whether the first byte is `#`.
pub fn begins_comment(line: &[u8]) -> bool
    ensures { result ≡ begins_comment line.now }
{
    match line {
        [b'#', ..] => true,
        _ => false,
    }
}

/// Whether the words are those of the header.
pub fn is_header(words: &[&[u8]]) -> bool
    ensures { result ≡ is_header (map (λ w. w.now) words.now) }
{
    match words {
        [word, version] => *word == b"posgame".as_slice() && *version == b"1".as_slice(),
        _ => false,
    }
}

/// The two numbers that the words spell, if there are two and each spells one.
#[tactic(auto, unfolding(pg_text::specs::Text::numbers))]
pub fn two_numbers(words: &[&[u8]]) -> Option<(u32, u32)>
    ensures two { IfSome result (λ p. (length words.now ≡ 2)
        × (numbers (map (λ w. w.now) words.now) ≡ Some (p.0 ∷ p.1 ∷ []))) }
    ensures other { IfNone result
        ((not (length words.now == 2) || is_none (numbers (map (λ w. w.now) words.now))) ≡ true) }
{
    let [first, second] = words else {
        return None;
    };
    Some((number(first)?, number(second)?))
}

/// How many signs `1` a word has.
pub fn ones(word: &[u8]) -> usize
    ensures { result ≡ ones word.now }
{
    word.iter().filter(|b| **b == b'1').count()
}
