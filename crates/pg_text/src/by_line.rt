//! The lines of a text.
ghost use Rattle.std.specs.Prelude.{◌≡◌, [], ◌∷◌, IfSome, IfNone};
ghost use Rattle.std.specs.Iterator.{YieldsFirstRef, item_count};
ghost use Rattle.pg_text.specs.Text.{lines};

use crate::parts::cut_at;
use pg_base::LINE_FEED;
use std::marker::Model;

/// The lines of a text, cut at each line feed. One that ends the text begins no further line.
///
/// It is an iterator over them, which makes no copy of the text.
#[derive(Drop)]
pub struct Lines<'a> {
    text: &'a [u8],
}

/// The lines in order.
impl<'a> Model for Lines<'a> {
    ghost use Rattle.std.specs.Prelude.{List, ℕ};

    ghost Value = { List (List ℕ) };

    ghost use Rattle.pg_text.specs.Text.{lines};

    ghost view = { λ a. lines a.text.now };
}

impl<'a> Lines<'a> {
    /// The lines of a text.
    pub fn of(text: &'a [u8]) -> Lines<'a>
        ensures { result ≡ lines text.now }
    {
        Lines { text }
    }
}

impl<'a> Iterator for Lines<'a> {
    type Item = &'a [u8];

    ghost next_gives = { YieldsFirstRef (λ ls. ls) };

    ghost remaining = { item_count (λ ls. ls) };

    fn next(&mut self) -> Option<&'a [u8]> {
        let (line, behind) = first_line(self.text)?;
        self.text = behind;
        Some(line)
    }
}

/// The first line, and the text after its line feed; none of a text without bytes.
fn first_line(text: &[u8]) -> Option<(&[u8], &[u8])>
    ensures first { IfSome result (λ p. lines text.now ≡ p.0.now ∷ lines p.1.now) }
    ensures none { IfNone result (lines text.now ≡ []) }
{
    if text.is_empty() {
        return None;
    }
    match cut_at(LINE_FEED, text) {
        Some((line, behind)) => Some((line, behind)),
        None => Some((text, &[])),
    }
}
