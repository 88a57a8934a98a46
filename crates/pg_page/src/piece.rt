//! The pieces of pages.
ghost use Rattle.std.specs.Prelude.{◌≡◌, ◌++◌, ◌∷◌, [], OnOk};
ghost use Rattle.pg_page.specs.declared.piece.Piece.TheVariants.{Close, Open, Words};

use crate::attribute::Attributes;
use crate::tag::{LoneTag, Tag};
use pg_base::Memory;
use pg_picture::Text;
use std::alloc::Global;

/// A piece of a page.
#[derive(Debug, Drop)]
pub enum Piece {
    /// A tag that opens.
    Open {
        /// The tag.
        tag: Tag,
        /// Its attributes.
        attributes: Attributes,
    },
    /// A tag that is closed at once.
    Lone {
        /// The tag.
        tag: LoneTag,
        /// Its attributes.
        attributes: Attributes,
    },
    /// A tag that closes.
    Close {
        /// The tag.
        tag: Tag,
    },
    /// Words.
    Words {
        /// The words.
        words: Text,
    },
    /// A style sheet.
    Style {
        /// Its rules.
        rules: Text,
    },
}

/// Adds a tag that opens, without attributes. An error is want of memory.
pub fn push_open(alloc: Global, pieces: &mut Vec<Piece>, tag: Tag) -> Result<(), Memory>
    ensures { OnOk result (pieces.new.items ≡ pieces.old.items ++ Open tag [] ∷ []) }
{
    let attributes = Attributes::none(alloc);
    pieces.push(Piece::Open { tag, attributes })?;
    Ok(())
}

/// Adds a tag that closes. An error is want of memory.
pub fn push_close(pieces: &mut Vec<Piece>, tag: Tag) -> Result<(), Memory>
    ensures { OnOk result (pieces.new.items ≡ pieces.old.items ++ Close tag ∷ []) }
{
    pieces.push(Piece::Close { tag })?;
    Ok(())
}

/// Adds words. An error is want of memory.
pub fn push_words(alloc: Global, pieces: &mut Vec<Piece>, words: &str) -> Result<(), Memory>
    ensures { OnOk result (pieces.new.items ≡ pieces.old.items ++ Words words.now ∷ []) }
{
    let mut copied = String::new(alloc);
    copied.push_str(words)?;
    let words = Text::from_string(copied);
    pieces.push(Piece::Words { words })?;
    Ok(())
}
