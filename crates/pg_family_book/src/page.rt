//! The sections of claims.
ghost use Rattle.std.specs.Prelude.{◌≡◌, ◌++◌, OnOk};
ghost use Rattle.std.specs.List.{flat_map};
ghost use Rattle.pg_book_parts.specs.Elements.{paragraph};
ghost use Rattle.pg_family_book.specs.Leaves.{away_pieces, chapter_at, leaf_pieces};

use crate::leaf::Leaf;
use crate::tables::{push_picture, push_table};
use pg_base::Memory;
use pg_book::{LEGEND, page_attributes, push_heading};
use pg_book_parts::{Chapter, Page, push_labelled, push_paragraph};
use pg_captions::Text;
use pg_page::{Attributes, Name, Piece, Tag, push_close};
use std::alloc::Global;

/// What the one page of a claim is numbered by.
pub(crate) fn chapter_at(claim: u32) -> Chapter
    ensures { result ≡ chapter_at claim }
{
    Chapter {
        claim,
        count: 1,
        room: 1,
    }
}

/// Adds paragraphs.
fn push_paragraphs(alloc: Global, pieces: &mut Vec<Piece>, texts: &[Text]) -> Result<(), Memory>
    ensures { OnOk result
        (pieces.new.items ≡ pieces.old.items ++ flat_map paragraph texts.now) }
{
    for text in texts {
        push_paragraph(alloc, pieces, text.as_str())?;
    }
    Ok(())
}

/// Adds a link to the legend.
fn push_away(alloc: Global, pieces: &mut Vec<Piece>) -> Result<(), Memory>
    ensures { OnOk result (pieces.new.items ≡ pieces.old.items ++ away_pieces) }
{
    let attributes = Attributes::none(alloc).words(alloc, Name::Class, "leave")?;
    let tag = Tag::P;
    pieces.push(Piece::Open { tag, attributes })?;
    let to_legend = Attributes::none(alloc).words(alloc, Name::Href, LEGEND)?;
    push_labelled(alloc, pieces, Tag::A, to_legend, "Legend")?;
    push_close(pieces, Tag::P)
}

/// Adds the section of a claim.
fn push_leaf(alloc: Global, pieces: &mut Vec<Piece>, leaf: &Leaf) -> Result<(), Memory>
    ensures { OnOk result (pieces.new.items ≡ pieces.old.items ++ leaf_pieces leaf.now) }
{
    let page = Page {
        chapter: chapter_at(leaf.number),
        number: 1,
    };
    let attributes = page_attributes(alloc, page)?;
    let tag = Tag::Section;
    pieces.push(Piece::Open { tag, attributes })?;
    push_heading(alloc, pieces, page)?;
    push_picture(alloc, pieces, &leaf.picture)?;
    push_paragraphs(alloc, pieces, leaf.words.as_slice())?;
    push_table(alloc, pieces, &leaf.table)?;
    push_away(alloc, pieces)?;
    push_close(pieces, Tag::Section)
}

/// Adds the sections of claims.
pub(crate) fn push_leaves(
    alloc: Global,
    pieces: &mut Vec<Piece>,
    leaves: &[Leaf],
) -> Result<(), Memory>
    ensures { OnOk result
        (pieces.new.items ≡ pieces.old.items ++ flat_map leaf_pieces leaves.now) }
{
    for leaf in leaves {
        push_leaf(alloc, pieces, leaf)?;
    }
    Ok(())
}
