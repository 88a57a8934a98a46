//! The words of a line.
ghost use Rattle.std.specs.Prelude.{◌≡◌, [], List, ℕ, Result, map, IfOk};
ghost use Rattle.pg_text.specs.Prelude.{YieldsFirstRef, item_count, SPACE};
ghost use Rattle.pg_text.specs.Faults.{Gives, IsReader, each_of};
ghost use Rattle.pg_text.specs.Text.{parts, words};

use crate::error::LineError;
use crate::parts::first_word;
use pg_base::SPACE;
use std::alloc::{AllocError, Global};
use std::marker::Model;

/// The words of a text, of which there may be none: a single space stands between each two, so that
/// words may be empty.
///
/// It is an iterator over them, which makes no copy of the text.
#[derive(Drop)]
pub struct Words<'a> {
    text: Option<&'a [u8]>,
}

/// The words in order.
impl<'a> Model for Words<'a> {
    ghost use Rattle.std.specs.Prelude.{List, ℕ, option_map};

    ghost Value = { List (List ℕ) };

    ghost use Rattle.pg_text.specs.Text.{words_of};

    ghost view = { λ a. words_of (option_map (λ w. w.now) a.text) };
}

impl<'a> Words<'a> {
    /// The words of a text: at least one.
    pub fn of(text: &'a [u8]) -> Words<'a>
        ensures { result ≡ parts SPACE text.now }
    {
        Words { text: Some(text) }
    }

    /// No words.
    pub fn none() -> Words<'a>
        ensures { result ≡ [] }
    {
        Words { text: None }
    }

    /// What `read` makes of each word, in order, or its fault at the first word that has one.
    pub fn each<T: Drop, F, R: Fn(&[u8]) -> Result<T, LineError<F>>>(
        self,
        alloc: Global,
        read: R,
    ) -> Result<Vec<T>, LineError<F>>
        requires { R.IsAlwaysCallable read }
        ensures { (says : List ℕ → Result T F) → IsReader R.post read says
            → Gives (λ v. v.items) result (each_of says self.entry) }
    {
        let mut found = Vec::new(alloc);
        for word in self {
            let next = read(word)?;
            found.push(next)?;
        }
        Ok(found)
    }

    /// The words that are left, once more.
    pub fn again(&self) -> Words<'a>
        ensures { result ≡ self.now }
    {
        Words { text: self.text }
    }
}

impl<'a> Iterator for Words<'a> {
    type Item = &'a [u8];

    ghost next_gives = { YieldsFirstRef (λ ws. ws) };

    ghost remaining = { item_count (λ ws. ws) };

    fn next(&mut self) -> Option<&'a [u8]> {
        let text = self.text?;
        let (word, others) = first_word(text);
        self.text = others;
        Some(word)
    }
}

/// The words of a line in which any number of spaces stands between them: no word is empty.
pub fn word_list(alloc: Global, line: &[u8]) -> Result<Vec<&[u8]>, AllocError>
    ensures { IfOk result (λ found. map (λ w. w.now) found.items ≡ words line.now) }
{
    line.split(|b| *b == SPACE)
        .filter(|w| !w.is_empty())
        .collect(alloc)
}
