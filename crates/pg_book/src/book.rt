//! Certificates as books.
ghost use Rattle.std.specs.Prelude.{◌≡◌, ◌<◌, ◌≤◌, ◌++◌, IfOk, OnOk, length, slice_get};
ghost use Rattle.std.specs.Prelude.{string_bytes};
ghost use Rattle.std.specs.List.{All};
ghost use Rattle.pg_cert.specs.Limits.{IsWithinLimits};
ghost use Rattle.pg_cert.specs.declared.limits.TheConstants.{MAX_CLAIMS, MAX_CLAIM_NODES};
ghost use Rattle.pg_page.specs.Html.{page_text};
ghost use Rattle.pg_book.specs.Boards.{layout_of};
ghost use Rattle.pg_book.specs.Books.{book_by, book_text, claim_by, claims_pieces};
ghost use Rattle.pg_book.specs.Books.{header_pieces, html_pieces, main_pieces, shown_pieces};

use crate::front::{TITLE, chapter_of, push_depth, push_entries, push_head, push_legend};
use crate::scenes::{draw_board, layout_of};
use crate::sections::push_sections;
use pg_base::Memory;
use pg_book_parts::{Layout, push_plain};
use pg_cert::{Cert, Claim};
use pg_game::Game;
use pg_layout::Chart;
use pg_near::arrange;
use pg_page::{Attributes, Name, Piece, Tag, print_page, push_close, push_open};
use std::alloc::Global;

/// Adds the sections of the claim of that number.
fn push_claim_at(
    alloc: Global,
    pieces: &mut Vec<Piece>,
    g: &Game,
    layout: &Layout,
    cert: &Cert,
    depth: Option<u32>,
    i: usize,
) -> Result<(), Memory>
    requires claims { length cert.now.claims ≤ MAX_CLAIMS }
    requires nodes { All (λ claim. length claim.nodes ≤ MAX_CLAIM_NODES) cert.now.claims }
    requires one { i < length cert.now.claims }
    ensures { OnOk result
        (pieces.new.items
        ≡ pieces.old.items
        ++ claim_by g.now layout.now depth (length cert.now.claims) i
        (slice_get cert.now.claims i)) }
{
    let claims = cert.claims.as_slice();
    let claim = &claims[i];
    let chapter = chapter_of(g, depth, claims.len(), i, claim);
    push_sections(alloc, pieces, g, layout, cert, claim, chapter)
}

/// Adds the sections of all claims.
fn push_claims(
    alloc: Global,
    pieces: &mut Vec<Piece>,
    g: &Game,
    layout: &Layout,
    cert: &Cert,
    depth: Option<u32>,
) -> Result<(), Memory>
    requires claims { length cert.now.claims ≤ MAX_CLAIMS }
    requires nodes { All (λ claim. length claim.nodes ≤ MAX_CLAIM_NODES) cert.now.claims }
    ensures { OnOk result
        (pieces.new.items
        ≡ pieces.old.items ++ claims_pieces g.now layout.now depth cert.now.claims) }
{
    let count = cert.claims.as_slice().len();
    for i in 0..count {
        push_claim_at(alloc, pieces, g, layout, cert, depth, i)?;
    }
    Ok(())
}

/// Adds the title, what the claims say, and how far the book reads on.
fn push_header(
    alloc: Global,
    pieces: &mut Vec<Piece>,
    g: &Game,
    depth: Option<u32>,
    claims: &[Claim],
) -> Result<(), Memory>
    requires claims { length claims.now ≤ MAX_CLAIMS }
    requires nodes { All (λ claim. length claim.nodes ≤ MAX_CLAIM_NODES) claims.now }
    ensures { OnOk result
        (pieces.new.items ≡ pieces.old.items ++ header_pieces g.now depth claims.now) }
{
    push_open(alloc, pieces, Tag::Header)?;
    push_plain(alloc, pieces, Tag::H1, TITLE)?;
    push_entries(alloc, pieces, g, depth, claims)?;
    push_depth(alloc, pieces, depth)?;
    push_close(pieces, Tag::Header)
}

/// Adds the sections and the legend.
fn push_main(
    alloc: Global,
    pieces: &mut Vec<Piece>,
    g: &Game,
    layout: &Layout,
    cert: &Cert,
    depth: Option<u32>,
) -> Result<(), Memory>
    requires claims { length cert.now.claims ≤ MAX_CLAIMS }
    requires nodes { All (λ claim. length claim.nodes ≤ MAX_CLAIM_NODES) cert.now.claims }
    ensures { OnOk result
        (pieces.new.items
        ≡ pieces.old.items ++ main_pieces g.now layout.now depth cert.now.claims) }
{
    push_open(alloc, pieces, Tag::Main)?;
    push_claims(alloc, pieces, g, layout, cert, depth)?;
    push_legend(alloc, pieces)?;
    push_close(pieces, Tag::Main)
}

/// Adds what is shown of the page.
fn push_shown(
    alloc: Global,
    pieces: &mut Vec<Piece>,
    g: &Game,
    layout: &Layout,
    cert: &Cert,
    depth: Option<u32>,
) -> Result<(), Memory>
    requires claims { length cert.now.claims ≤ MAX_CLAIMS }
    requires nodes { All (λ claim. length claim.nodes ≤ MAX_CLAIM_NODES) cert.now.claims }
    ensures { OnOk result
        (pieces.new.items
        ≡ pieces.old.items ++ shown_pieces g.now layout.now depth cert.now.claims) }
{
    push_open(alloc, pieces, Tag::Body)?;
    push_header(alloc, pieces, g, depth, cert.claims.as_slice())?;
    push_main(alloc, pieces, g, layout, cert, depth)?;
    push_close(pieces, Tag::Body)
}

/// Adds the tag that opens a page. An error means that memory ran out.
pub fn push_html(alloc: Global, pieces: &mut Vec<Piece>) -> Result<(), Memory>
    ensures { OnOk result (pieces.new.items ≡ pieces.old.items ++ html_pieces) }
{
    let attributes = Attributes::none(alloc).words(alloc, Name::Lang, "en")?;
    let tag = Tag::Html;
    pieces.push(Piece::Open { tag, attributes })?;
    Ok(())
}

/// Adds the page.
fn push_book(
    alloc: Global,
    pieces: &mut Vec<Piece>,
    g: &Game,
    layout: &Layout,
    cert: &Cert,
    depth: Option<u32>,
) -> Result<(), Memory>
    requires claims { length cert.now.claims ≤ MAX_CLAIMS }
    requires nodes { All (λ claim. length claim.nodes ≤ MAX_CLAIM_NODES) cert.now.claims }
    ensures { OnOk result
        (pieces.new.items ≡ pieces.old.items ++ book_by g.now layout.now depth cert.now) }
{
    let board = draw_board(alloc, g, layout.chart)?;
    push_html(alloc, pieces)?;
    push_head(alloc, pieces, &board)?;
    push_shown(alloc, pieces, g, layout, cert, depth)?;
    push_close(pieces, Tag::Html)
}

/// Returns the text of the book of a certificate whose nodes are in their order.
fn print_ordered(
    alloc: Global,
    chart: Option<Chart>,
    game: &Game,
    cert: &Cert,
    depth: Option<u32>,
) -> Result<String, Memory>
    requires claims { length cert.now.claims ≤ MAX_CLAIMS }
    requires nodes { All (λ claim. length claim.nodes ≤ MAX_CLAIM_NODES) cert.now.claims }
    ensures { IfOk result (λ text. string_bytes text
        ≡ page_text (book_by game.now (layout_of chart game.now) depth cert.now)) }
{
    let mut pieces = Vec::new(alloc);
    let layout = layout_of(alloc, chart, game)?;
    push_book(alloc, &mut pieces, game, &layout, cert, depth)?;
    print_page(alloc, pieces.as_slice())
}

/// Returns the text of a certificate's book, in HTML: a section for each node of each claim, from
/// the root on, with its picture, what it says, and links to the nodes that follow. The game is one
/// on lines or a switching game. With a layout, its points are at the places of that in all
/// pictures and under all links, if it is on lines without a grid and has as many points. With a
/// depth, the book has the nodes alone whose positions have at most so many more claimed points
/// than the game's start. Claims share `MAX_SECTIONS` sections. A link to a node that the book
/// doesn't have is the number of its page alone.
///
/// # Errors
///
/// `Memory` if no memory is found.
pub fn print_book(
    alloc: Global,
    layout: Option<Chart>,
    game: &Game,
    cert: &Cert,
    depth: Option<u32>,
) -> Result<String, Memory>
    requires limits { IsWithinLimits cert.now }
    ensures { IfOk result (λ text. string_bytes text ≡ book_text layout game.now cert.now depth) }
{
    match depth {
        None => print_ordered(alloc, layout, game, cert, None),
        Some(moves) => {
            let ordered = arrange(alloc, game, moves, cert)?;
            print_ordered(alloc, layout, game, &ordered, Some(moves))
        }
    }
}
