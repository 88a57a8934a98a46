//! Elements of pages.
ghost use Rattle.std.specs.Prelude.{◌≡◌, ◌++◌, [], OnOk};
ghost use Rattle.pg_book_parts.specs.Elements.{labelled, paragraph};

use pg_base::Memory;
use pg_page::{Attributes, Piece, Tag, push_close, push_words};
use std::alloc::Global;

/// Adds an element with words alone in it. An error means that memory ran out.
pub fn push_labelled(
    alloc: Global,
    pieces: &mut Vec<Piece>,
    tag: Tag,
    attributes: Attributes,
    words: &str,
) -> Result<(), Memory>
    ensures { OnOk result
        (pieces.new.items ≡ pieces.old.items ++ labelled tag attributes words.now) }
{
    pieces.push(Piece::Open { tag, attributes })?;
    push_words(alloc, pieces, words)?;
    push_close(pieces, tag)
}

/// Adds an element without attributes, with words alone in it. An error means that memory ran out.
pub fn push_plain(
    alloc: Global,
    pieces: &mut Vec<Piece>,
    tag: Tag,
    words: &str,
) -> Result<(), Memory>
    ensures { OnOk result (pieces.new.items ≡ pieces.old.items ++ labelled tag [] words.now) }
{
    push_labelled(alloc, pieces, tag, Attributes::none(alloc), words)
}

/// Adds a paragraph. An error means that memory ran out.
pub fn push_paragraph(alloc: Global, pieces: &mut Vec<Piece>, words: &str) -> Result<(), Memory>
    ensures { OnOk result (pieces.new.items ≡ pieces.old.items ++ paragraph words.now) }
{
    push_plain(alloc, pieces, Tag::P, words)
}
