//! The sections of nodes.
ghost use Rattle.std.specs.Prelude.{◌≡◌, ◌≤◌, ◌++◌, IfOk, OnOk, Some, length, slice_get};
ghost use Rattle.std.specs.List.{flat_map};
ghost use Rattle.pg_book.specs.Books.{board_pieces, detail_pieces, heading_pieces, is_first};
ghost use Rattle.pg_book.specs.Books.{leave_pieces};
ghost use Rattle.pg_book.specs.Books.{line_pieces, page_attributes, page_class, page_pieces};
ghost use Rattle.pg_book.specs.Books.{reset_pieces, section_at, sections_pieces, svg_pieces};
ghost use Rattle.pg_book_parts.specs.Pictures.{over_pieces};

use crate::front::LEGEND;
use crate::scenes::{Shown, show_node};
use crate::sentences::push_body;
use pg_base::{Memory, Side};
use pg_book_parts::{
    Chapter, Layout, Page, number_after, page_id, push_labelled, push_link, push_origin, push_over,
    push_plain, push_shapes, view_of,
};
use pg_captions::Text;
use pg_cert::{Body, Cert, Claim};
use pg_game::Game;
use pg_page::{Attributes, Name, Piece, Tag, push_close, push_open, push_words};
use pg_picture::Picture;
use std::alloc::Global;

/// Adds a picture, with what is over it.
fn push_svg(
    alloc: Global,
    pieces: &mut Vec<Piece>,
    layout: &Layout,
    side: Side,
    page: Page,
    body: &Body,
    picture: &Picture,
) -> Result<(), Memory>
    ensures { OnOk result
        (pieces.new.items
        ≡ pieces.old.items ++ svg_pieces picture.now
        (over_pieces layout.now side page.chapter page.number body.now)) }
{
    let view = view_of(alloc, picture)?;
    let attributes = Attributes::none(alloc)
        .text(Name::ViewBox, view)?
        .words(alloc, Name::Role, "group")?;
    let tag = Tag::Svg;
    pieces.push(Piece::Open { tag, attributes })?;
    push_shapes(alloc, pieces, picture.shapes.as_slice())?;
    push_over(alloc, pieces, layout, side, page, body)?;
    push_close(pieces, Tag::Svg)
}

/// Adds what takes all choices back.
fn push_reset(alloc: Global, pieces: &mut Vec<Piece>) -> Result<(), Memory>
    ensures { OnOk result (pieces.new.items ≡ pieces.old.items ++ reset_pieces) }
{
    let attributes = Attributes::none(alloc).words(alloc, Name::Type, "reset")?;
    push_labelled(alloc, pieces, Tag::Button, attributes, "Take all back")
}

/// Adds the picture of a node; if it has choices, in a form that takes them back.
fn push_board(
    alloc: Global,
    pieces: &mut Vec<Piece>,
    layout: &Layout,
    side: Side,
    page: Page,
    body: &Body,
    picture: &Picture,
) -> Result<(), Memory>
    ensures { OnOk result
        (pieces.new.items
        ≡ pieces.old.items
        ++ board_pieces layout.now side page.chapter page.number body.now picture.now) }
{
    let Body::Pairs(_) = body else {
        return push_svg(alloc, pieces, layout, side, page, body, picture);
    };
    push_open(alloc, pieces, Tag::Form)?;
    push_svg(alloc, pieces, layout, side, page, body, picture)?;
    push_reset(alloc, pieces)?;
    push_close(pieces, Tag::Form)
}

/// Adds lines of a list.
fn push_lines(alloc: Global, pieces: &mut Vec<Piece>, lines: &[Text]) -> Result<(), Memory>
    ensures { OnOk result
        (pieces.new.items ≡ pieces.old.items ++ flat_map line_pieces lines.now) }
{
    for line in lines {
        push_plain(alloc, pieces, Tag::Li, line.as_str())?;
    }
    Ok(())
}

/// Adds what the weights of a node are, if it has any.
fn push_details(
    alloc: Global,
    pieces: &mut Vec<Piece>,
    body: &Body,
    lines: &[Text],
) -> Result<(), Memory>
    ensures { OnOk result
        (pieces.new.items ≡ pieces.old.items ++ detail_pieces body.now lines.now) }
{
    let Body::Potential = body else {
        return Ok(());
    };
    push_open(alloc, pieces, Tag::Ul)?;
    push_lines(alloc, pieces, lines)?;
    push_close(pieces, Tag::Ul)
}

/// Adds links to the first page of the claim, and to the legend.
fn push_leave(alloc: Global, pieces: &mut Vec<Piece>, chapter: Chapter) -> Result<(), Memory>
    ensures { OnOk result (pieces.new.items ≡ pieces.old.items ++ leave_pieces chapter) }
{
    let attributes = Attributes::none(alloc).words(alloc, Name::Class, "leave")?;
    let tag = Tag::P;
    pieces.push(Piece::Open { tag, attributes })?;
    push_words(alloc, pieces, "Begin again: ")?;
    push_link(alloc, pieces, chapter, chapter.count.saturating_sub(1))?;
    push_words(alloc, pieces, ". ")?;
    let to_legend = Attributes::none(alloc).words(alloc, Name::Href, LEGEND)?;
    push_labelled(alloc, pieces, Tag::A, to_legend, "Legend")?;
    push_close(pieces, Tag::P)
}

/// Whether a page is the first of the book.
fn is_first(page: Page) -> bool
    ensures { result ≡ is_first page.chapter page.number }
{
    page.chapter.claim == 0 && page.number == 1
}

/// The class of a page's section.
fn page_class(page: Page) -> &'static str
    ensures { result.now ≡ page_class page.chapter page.number }
{
    if is_first(page) { "first" } else { "later" }
}

/// Returns the attributes of a page's section. An error means that memory ran out.
pub fn page_attributes(alloc: Global, page: Page) -> Result<Attributes, Memory>
    ensures { IfOk result (λ found. found ≡ page_attributes page.chapter page.number) }
{
    let id = page_id(alloc, page.chapter, page.number)?;
    Attributes::none(alloc)
        .text(Name::Id, id)?
        .words(alloc, Name::Class, page_class(page))
}

/// Adds the heading of a page. An error means that memory ran out.
pub fn push_heading(alloc: Global, pieces: &mut Vec<Piece>, page: Page) -> Result<(), Memory>
    ensures { OnOk result
        (pieces.new.items ≡ pieces.old.items ++ heading_pieces page.chapter page.number) }
{
    let title = number_after(alloc, "Page ", page.chapter, page.number)?;
    push_plain(alloc, pieces, Tag::H2, title.as_str())
}

/// Adds a section with what is shown of a node.
fn push_page(
    alloc: Global,
    pieces: &mut Vec<Piece>,
    layout: &Layout,
    claim: &Claim,
    page: Page,
    body: &Body,
    shown: &Shown,
) -> Result<(), Memory>
    requires { page.number ≤ page.chapter.count }
    ensures { OnOk result
        (pieces.new.items
        ≡ pieces.old.items ++ page_pieces layout.now claim.now page.chapter page.number body.now
        shown.now.picture shown.now.legend) }
{
    let side = claim.side;
    let attributes = page_attributes(alloc, page)?;
    let tag = Tag::Section;
    pieces.push(Piece::Open { tag, attributes })?;
    push_heading(alloc, pieces, page)?;
    push_origin(alloc, pieces, layout, claim, page)?;
    push_board(alloc, pieces, layout, side, page, body, &shown.picture)?;
    push_body(alloc, pieces, layout, side, page.chapter, body)?;
    push_details(alloc, pieces, body, shown.legend.as_slice())?;
    push_leave(alloc, pieces, page.chapter)?;
    push_close(pieces, Tag::Section)
}

/// Adds the section of the node of a page.
fn push_section(
    alloc: Global,
    pieces: &mut Vec<Piece>,
    g: &Game,
    layout: &Layout,
    cert: &Cert,
    claim: &Claim,
    page: Page,
) -> Result<(), Memory>
    requires named { slice_get cert.now.claims page.chapter.claim ≡ Some claim.now }
    requires counted { page.chapter.count ≡ length claim.now.nodes }
    requires first { 1 ≤ page.number }
    requires last { page.number ≤ page.chapter.count }
    ensures { OnOk result
        (pieces.new.items
        ≡ pieces.old.items
        ++ section_at g.now layout.now claim.now page.chapter page.number) }
{
    let number = page.chapter.count - page.number;
    let nodes = claim.nodes.as_slice();
    let node = &nodes[number as usize];
    let Some(shown) = show_node(alloc, g, layout.chart, cert, page, number)? else {
        unreachable!();
    };
    push_page(alloc, pieces, layout, claim, page, &node.body, &shown)
}

/// Adds the sections of a claim, from its root on.
pub(crate) fn push_sections(
    alloc: Global,
    pieces: &mut Vec<Piece>,
    g: &Game,
    layout: &Layout,
    cert: &Cert,
    claim: &Claim,
    chapter: Chapter,
) -> Result<(), Memory>
    requires named { slice_get cert.now.claims chapter.claim ≡ Some claim.now }
    requires counted { chapter.count ≡ length claim.now.nodes }
    ensures { OnOk result
        (pieces.new.items
        ≡ pieces.old.items ++ sections_pieces g.now layout.now claim.now chapter) }
{
    for i in 0..chapter.shown() {
        let number = i + 1;
        let page = Page { chapter, number };
        push_section(alloc, pieces, g, layout, cert, claim, page)?;
    }
    Ok(())
}
