//! Pages of claims as a book.
ghost use Rattle.std.specs.Prelude.{◌≡◌, ◌++◌, IfOk, OnOk, string_bytes};
ghost use Rattle.std.specs.List.{flat_map};
ghost use Rattle.pg_family_book.specs.Leaves.{entry_pieces, explained_pieces, leaves_body};
ghost use Rattle.pg_family_book.specs.Leaves.{leaves_head, leaves_header, leaves_main, leaves_text};
ghost use Rattle.pg_family_book.specs.Leaves.{sheet_words, styled_pieces};
ghost use Rattle.pg_family_book.specs.Leaves.{leaves_page};

use crate::leaf::Leaf;
use crate::page::{chapter_at, push_leaves};
use pg_base::Memory;
use pg_book::{LEGEND, NOTHING_RUNS, STYLE, TITLE, push_html, push_metas};
use pg_book_parts::{push_link, push_paragraph, push_plain};
use pg_page::{Attributes, Name, Piece, Tag, print_page, push_close, push_open, push_words};
use pg_picture::Text;
use std::alloc::Global;

/// The rules of tables, after those of a book's style sheet.
pub const TABLES: &str = "table{border-collapse:collapse;margin:.5rem 0}
th,td{border:1px solid #999;padding:.1rem .6rem;text-align:left}
td:nth-child(2){font-family:ui-monospace,monospace}
@media (max-width:26rem){th,td{padding:.1rem .3rem}}
";

/// The style sheet.
fn sheet_text(alloc: Global) -> Result<Text, Memory>
    ensures { IfOk result (λ text. text ≡ sheet_words) }
{
    let mut rules = String::new(alloc);
    rules.push_str(STYLE)?;
    rules.push_str(TABLES)?;
    Ok(Text::from_string(rules))
}

/// Adds the style sheet.
fn push_styled(alloc: Global, pieces: &mut Vec<Piece>) -> Result<(), Memory>
    ensures { OnOk result (pieces.new.items ≡ pieces.old.items ++ styled_pieces) }
{
    let rules = sheet_text(alloc)?;
    pieces.push(Piece::Style { rules })?;
    Ok(())
}

/// Adds the head of the page.
fn push_head(alloc: Global, pieces: &mut Vec<Piece>) -> Result<(), Memory>
    ensures { OnOk result (pieces.new.items ≡ pieces.old.items ++ leaves_head) }
{
    push_open(alloc, pieces, Tag::Head)?;
    push_metas(alloc, pieces)?;
    push_plain(alloc, pieces, Tag::Title, TITLE)?;
    push_styled(alloc, pieces)?;
    push_close(pieces, Tag::Head)
}

/// Adds what a claim says, with a link to its page.
fn push_entry(alloc: Global, pieces: &mut Vec<Piece>, leaf: &Leaf) -> Result<(), Memory>
    ensures { OnOk result (pieces.new.items ≡ pieces.old.items ++ entry_pieces leaf.now) }
{
    push_open(alloc, pieces, Tag::P)?;
    push_words(alloc, pieces, leaf.said.as_str())?;
    push_link(alloc, pieces, chapter_at(leaf.number), 0)?;
    push_close(pieces, Tag::P)
}

/// Adds what claims say, each with a link to its page.
fn push_entries(alloc: Global, pieces: &mut Vec<Piece>, leaves: &[Leaf]) -> Result<(), Memory>
    ensures { OnOk result
        (pieces.new.items ≡ pieces.old.items ++ flat_map entry_pieces leaves.now) }
{
    for leaf in leaves {
        push_entry(alloc, pieces, leaf)?;
    }
    Ok(())
}

/// Adds the title, and what the claims say.
fn push_header(alloc: Global, pieces: &mut Vec<Piece>, leaves: &[Leaf]) -> Result<(), Memory>
    ensures { OnOk result (pieces.new.items ≡ pieces.old.items ++ leaves_header leaves.now) }
{
    push_open(alloc, pieces, Tag::Header)?;
    push_plain(alloc, pieces, Tag::H1, TITLE)?;
    push_entries(alloc, pieces, leaves)?;
    push_close(pieces, Tag::Header)
}

/// Adds what marks, colours and words mean.
fn push_explained(alloc: Global, pieces: &mut Vec<Piece>, legend: &str) -> Result<(), Memory>
    ensures { OnOk result (pieces.new.items ≡ pieces.old.items ++ explained_pieces legend.now) }
{
    let attributes = Attributes::none(alloc)
        .words(alloc, Name::Id, LEGEND)?
        .words(alloc, Name::Class, "later")?;
    let tag = Tag::Section;
    pieces.push(Piece::Open { tag, attributes })?;
    push_plain(alloc, pieces, Tag::H2, "Legend")?;
    push_paragraph(alloc, pieces, legend)?;
    push_paragraph(alloc, pieces, NOTHING_RUNS)?;
    push_close(pieces, Tag::Section)
}

/// Adds the sections and the legend.
fn push_main(
    alloc: Global,
    pieces: &mut Vec<Piece>,
    legend: &str,
    leaves: &[Leaf],
) -> Result<(), Memory>
    ensures { OnOk result
        (pieces.new.items ≡ pieces.old.items ++ leaves_main legend.now leaves.now) }
{
    push_open(alloc, pieces, Tag::Main)?;
    push_leaves(alloc, pieces, leaves)?;
    push_explained(alloc, pieces, legend)?;
    push_close(pieces, Tag::Main)
}

/// Adds what is shown of the page.
fn push_body(
    alloc: Global,
    pieces: &mut Vec<Piece>,
    legend: &str,
    leaves: &[Leaf],
) -> Result<(), Memory>
    ensures { OnOk result
        (pieces.new.items ≡ pieces.old.items ++ leaves_body legend.now leaves.now) }
{
    push_open(alloc, pieces, Tag::Body)?;
    push_header(alloc, pieces, leaves)?;
    push_main(alloc, pieces, legend, leaves)?;
    push_close(pieces, Tag::Body)
}

/// Adds the page.
fn push_all(
    alloc: Global,
    pieces: &mut Vec<Piece>,
    legend: &str,
    leaves: &[Leaf],
) -> Result<(), Memory>
    ensures { OnOk result
        (pieces.new.items ≡ pieces.old.items ++ leaves_page legend.now leaves.now) }
{
    push_html(alloc, pieces)?;
    push_head(alloc, pieces)?;
    push_body(alloc, pieces, legend, leaves)?;
    push_close(pieces, Tag::Html)
}

/// Returns the text of a book of claims, in HTML: a section for each, and a legend. An error means
/// that memory ran out.
pub fn print_leaves(alloc: Global, legend: &str, leaves: &[Leaf]) -> Result<String, Memory>
    ensures { IfOk result (λ text. string_bytes text ≡ leaves_text legend.now leaves.now) }
{
    let mut pieces = Vec::new(alloc);
    push_all(alloc, &mut pieces, legend, leaves)?;
    print_page(alloc, pieces.as_slice())
}
