//! The pages of a claim, their numbers, and links to them.
ghost use Rattle.std.specs.Prelude.{◌≡◌, ◌++◌, IfOk, OnOk, true, false, string_bytes};
ghost use Rattle.pg_book_parts.specs.Chapters.{has_page, link_by, link_pieces, number_text};
ghost use Rattle.pg_book_parts.specs.Chapters.{page_id, page_of, shown};

use crate::elements::push_labelled;
use pg_base::Memory;
use pg_page::{Attributes, Name, Piece, Tag, push_words};
use pg_picture::Text;
use std::alloc::{AllocError, Global};
use std::fmt::Write;

/// What is said before the number of a page that the book doesn't have.
pub const MISSING: &str = "not in this file: page ";

/// What the pages of a claim are numbered by.
#[derive(Clone, Copy, Debug, PartialEq, Eq)]
pub struct Chapter {
    /// The number of the claim in its certificate, from 0.
    pub claim: u32,
    /// How many nodes the claim has.
    pub count: u32,
    /// The most pages of the claim that the book may have.
    pub room: u32,
}

impl Chapter {
    /// Returns the page of a node, from 1: the last node is the root, where one begins to read.
    pub fn page_of(self, node: u32) -> u32
        ensures { result ≡ page_of self node }
    {
        self.count.saturating_sub(node)
    }

    /// Returns how many pages of the claim the book has.
    pub fn shown(self) -> u32
        ensures { result ≡ shown self }
    {
        self.count.min(self.room)
    }

    /// Returns whether the book has the page of a node.
    pub fn has_page(self, node: u32) -> bool
        ensures { result ≡ has_page self node }
    {
        node < self.count && self.page_of(node) <= self.room
    }
}

/// A page of a claim.
#[derive(Clone, Copy, Debug, PartialEq, Eq)]
pub struct Page {
    /// What the pages of the claim are numbered by.
    pub chapter: Chapter,
    /// Its number, from 1.
    pub number: u32,
}

/// Adds the number of a page, after that of its claim if it isn't the first.
fn put_number(out: &mut String, chapter: Chapter, page: u32) -> Result<(), AllocError>
    ensures { OnOk result
        (string_bytes out.new ≡ string_bytes out.old ++ number_text chapter page) }
{
    if chapter.claim > 0 {
        let claim = u64::from(chapter.claim) + 1;
        write!(out, "{claim}-")?;
    }
    write!(out, "{page}")?;
    Ok(())
}

/// Returns the number of a page after these words. An error means that memory ran out.
pub fn number_after(
    alloc: Global,
    before: &str,
    chapter: Chapter,
    page: u32,
) -> Result<Text, Memory>
    ensures { IfOk result (λ text. text ≡ before.now ++ number_text chapter page) }
{
    let mut words = String::new(alloc);
    words.push_str(before)?;
    put_number(&mut words, chapter, page)?;
    Ok(Text::from_string(words))
}

/// Returns the identity of the section of a page. An error means that memory ran out.
pub fn page_id(alloc: Global, chapter: Chapter, page: u32) -> Result<Text, Memory>
    ensures { IfOk result (λ text. text ≡ page_id chapter page) }
{
    number_after(alloc, "p", chapter, page)
}

/// Adds a link to a page.
fn push_page_link(
    alloc: Global,
    pieces: &mut Vec<Piece>,
    chapter: Chapter,
    page: u32,
) -> Result<(), Memory>
    ensures { OnOk result (pieces.new.items ≡ pieces.old.items ++ link_by chapter page true) }
{
    let id = page_id(alloc, chapter, page)?;
    let attributes = Attributes::none(alloc).text(Name::Href, id)?;
    let words = number_after(alloc, "page ", chapter, page)?;
    push_labelled(alloc, pieces, Tag::A, attributes, words.as_str())
}

/// Adds the number of a page that the book doesn't have.
fn push_page_number(
    alloc: Global,
    pieces: &mut Vec<Piece>,
    chapter: Chapter,
    page: u32,
) -> Result<(), Memory>
    ensures { OnOk result (pieces.new.items ≡ pieces.old.items ++ link_by chapter page false) }
{
    let words = number_after(alloc, MISSING, chapter, page)?;
    push_words(alloc, pieces, words.as_str())
}

/// Adds a link to the page of a node, or the number of the page alone if the book doesn't have it.
/// An error means that memory ran out.
pub fn push_link(
    alloc: Global,
    pieces: &mut Vec<Piece>,
    chapter: Chapter,
    node: u32,
) -> Result<(), Memory>
    ensures { OnOk result (pieces.new.items ≡ pieces.old.items ++ link_pieces chapter node) }
{
    let page = chapter.page_of(node);
    if chapter.has_page(node) {
        push_page_link(alloc, pieces, chapter, page)
    } else {
        push_page_number(alloc, pieces, chapter, page)
    }
}
