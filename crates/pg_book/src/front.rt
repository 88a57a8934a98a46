//! What is before the sections of a book, and its legend.
ghost use Rattle.std.specs.Prelude.{◌≡◌, ◌≤◌, ◌<◌, ◌++◌, IfOk, OnOk, length, slice_get};
ghost use Rattle.std.specs.Prelude.{string_bytes};
ghost use Rattle.std.specs.List.{All};
ghost use Rattle.pg_cert.specs.declared.limits.TheConstants.{MAX_CLAIMS, MAX_CLAIM_NODES};
ghost use Rattle.pg_book.specs.Depths.{depth_pieces, depth_words, room_of};
ghost use Rattle.pg_book.specs.Books.{chapter_of, charset_pieces, claim_words, entries_pieces};
ghost use Rattle.pg_book.specs.Books.{entry_by, goal_words};
ghost use Rattle.pg_book.specs.Books.{entry_pieces, entry_words, head_pieces, legend_attributes};
ghost use Rattle.pg_book.specs.Books.{legend_pieces, meta_pieces, metas_pieces};

use crate::sheet::push_sheet;
use pg_base::{Goal, Kind, Memory};
use pg_book_parts::{Chapter, push_link, push_paragraph, push_plain};
use pg_captions::side_name;
use pg_cert::Claim;
use pg_game::Game;
use pg_near::near_count;
use pg_page::{Attributes, LoneTag, Name, Piece, Tag, push_close, push_open, push_words};
use pg_picture::{Picture, Text};
use std::alloc::{AllocError, Global};
use std::fmt::Write;

/// The most sections of nodes in a book.
pub const MAX_SECTIONS: u32 = 2000;

/// The title of a book.
pub const TITLE: &str = "A proof, position by position";

/// The identity of the section that says what marks and colours mean.
pub const LEGEND: &str = "legend";

/// What the marks of points mean.
pub(crate) const LEGEND_MARKS: &str = "X, dark: a point of X, who is Maker or Avoider. Y, light: \
    a point of Y, Breaker or Enforcer. In a graph, thick edges are Short's and dotted ones Cut's.";

/// What is clicked in pictures.
pub(crate) const LEGEND_LINKS: &str = "A dashed square or ring leads to the page of the position \
    after a move. The list below the picture has the same links.";

/// What pairs and sets mean.
pub(crate) const LEGEND_PAIRS: &str = "A stroke joins the points of a pair: choose one to see the \
    answer. Two sets of edges are blue, and orange and dashed; e is an extra edge in the first.";

/// What numbers in pictures mean.
pub(crate) const LEGEND_STEPS: &str = "A small number in a picture is that of a point or an edge, \
    and a bold one a weight. A number in a ring is that of a step: the rings of attacks are whole, \
    those of forced replies dashed.";

/// What a reader has to know of the page itself.
pub const NOTHING_RUNS: &str = "Page 1 is where the game begins. Nothing on this page runs: \
    it has links and choices alone. The page that is chosen is printed, or all if none is.";

/// Adds something that is said of the page.
fn push_meta(
    alloc: Global,
    pieces: &mut Vec<Piece>,
    name: &str,
    content: &str,
) -> Result<(), Memory>
    ensures { OnOk result
        (pieces.new.items ≡ pieces.old.items ++ meta_pieces name.now content.now) }
{
    let attributes = Attributes::none(alloc)
        .words(alloc, Name::Name, name)?
        .words(alloc, Name::Content, content)?;
    let tag = LoneTag::Meta;
    pieces.push(Piece::Lone { tag, attributes })?;
    Ok(())
}

/// Adds the code of the page's signs.
fn push_charset(alloc: Global, pieces: &mut Vec<Piece>) -> Result<(), Memory>
    ensures { OnOk result (pieces.new.items ≡ pieces.old.items ++ charset_pieces) }
{
    let attributes = Attributes::none(alloc).words(alloc, Name::Charset, "utf-8")?;
    let tag = LoneTag::Meta;
    pieces.push(Piece::Lone { tag, attributes })?;
    Ok(())
}

/// Adds what is said of a page. An error means that memory ran out.
pub fn push_metas(alloc: Global, pieces: &mut Vec<Piece>) -> Result<(), Memory>
    ensures { OnOk result (pieces.new.items ≡ pieces.old.items ++ metas_pieces) }
{
    push_charset(alloc, pieces)?;
    push_meta(
        alloc,
        pieces,
        "viewport",
        "width=device-width, initial-scale=1",
    )?;
    push_meta(alloc, pieces, "color-scheme", "light dark")
}

/// Adds the head of the page.
pub(crate) fn push_head(
    alloc: Global,
    pieces: &mut Vec<Piece>,
    board: &Picture,
) -> Result<(), Memory>
    ensures { OnOk result (pieces.new.items ≡ pieces.old.items ++ head_pieces board.now) }
{
    push_open(alloc, pieces, Tag::Head)?;
    push_metas(alloc, pieces)?;
    push_plain(alloc, pieces, Tag::Title, TITLE)?;
    push_sheet(alloc, pieces, board)?;
    push_close(pieces, Tag::Head)
}

/// How many pages a claim, of so many, may have: its share, and with a depth no more than it has
/// near nodes.
fn room_of(g: &Game, depth: Option<u32>, claims: usize, claim: &Claim) -> u32
    requires claims { claims ≤ MAX_CLAIMS }
    requires nodes { length claim.now.nodes ≤ MAX_CLAIM_NODES }
    ensures { result ≡ room_of g.now depth claims claim.now }
{
    let share = MAX_SECTIONS / (claims as u32).max(1);
    match depth {
        None => share,
        Some(moves) => share.min(near_count(g, moves, claim.nodes.as_slice())),
    }
}

/// What the pages of the claim of that number, of so many, are numbered by.
pub(crate) fn chapter_of(
    g: &Game,
    depth: Option<u32>,
    claims: usize,
    i: usize,
    claim: &Claim,
) -> Chapter
    requires claims { claims ≤ MAX_CLAIMS }
    requires one { i < claims }
    requires nodes { length claim.now.nodes ≤ MAX_CLAIM_NODES }
    ensures { result ≡ chapter_of g.now depth claims i claim.now }
{
    Chapter {
        claim: i as u32,
        count: claim.nodes.as_slice().len() as u32,
        room: room_of(g, depth, claims, claim),
    }
}

/// What a side reaches.
fn goal_words(goal: Goal) -> &'static str
    ensures { result.now ≡ goal_words goal }
{
    match goal {
        Goal::Win => " wins if ",
        Goal::Draw => " doesn't lose if ",
    }
}

/// Adds what a claim says.
fn put_claim(out: &mut String, kind: Kind, claim: &Claim) -> Result<(), AllocError>
    ensures { OnOk result
        (string_bytes out.new ≡ string_bytes out.old ++ claim_words kind claim.now) }
{
    out.push_str(side_name(kind, claim.side))?;
    out.push_str(goal_words(claim.goal))?;
    out.push_str(side_name(kind, claim.turn))?;
    out.push_str(" moves first")?;
    Ok(())
}

/// What a claim says, and how many pages it has.
fn entry_words(alloc: Global, kind: Kind, claim: &Claim, chapter: Chapter) -> Result<Text, Memory>
    ensures { IfOk result (λ text. text ≡ entry_words kind claim.now chapter) }
{
    let count = chapter.count;
    let shown = chapter.shown();
    let mut words = String::new(alloc);
    put_claim(&mut words, kind, claim)?;
    write!(words, ". Pages: {count}, of which this file has {shown}. ")?;
    Ok(Text::from_string(words))
}

/// Adds what a claim says, with a link to its first page.
fn push_entry(
    alloc: Global,
    pieces: &mut Vec<Piece>,
    kind: Kind,
    claim: &Claim,
    chapter: Chapter,
) -> Result<(), Memory>
    ensures { OnOk result
        (pieces.new.items ≡ pieces.old.items ++ entry_pieces kind claim.now chapter) }
{
    push_open(alloc, pieces, Tag::P)?;
    let words = entry_words(alloc, kind, claim, chapter)?;
    push_words(alloc, pieces, words.as_str())?;
    push_link(alloc, pieces, chapter, chapter.count.saturating_sub(1))?;
    push_close(pieces, Tag::P)
}

/// Adds what the claim of that number says.
fn push_entry_at(
    alloc: Global,
    pieces: &mut Vec<Piece>,
    g: &Game,
    depth: Option<u32>,
    claims: &[Claim],
    i: usize,
) -> Result<(), Memory>
    requires claims { length claims.now ≤ MAX_CLAIMS }
    requires nodes { All (λ claim. length claim.nodes ≤ MAX_CLAIM_NODES) claims.now }
    requires one { i < length claims.now }
    ensures { OnOk result
        (pieces.new.items
        ≡ pieces.old.items
        ++ entry_by g.now depth (length claims.now) i (slice_get claims.now i)) }
{
    let claim = &claims[i];
    let chapter = chapter_of(g, depth, claims.len(), i, claim);
    push_entry(alloc, pieces, g.kind, claim, chapter)
}

/// Adds what claims say, each with a link to its first page.
pub(crate) fn push_entries(
    alloc: Global,
    pieces: &mut Vec<Piece>,
    g: &Game,
    depth: Option<u32>,
    claims: &[Claim],
) -> Result<(), Memory>
    requires claims { length claims.now ≤ MAX_CLAIMS }
    requires nodes { All (λ claim. length claim.nodes ≤ MAX_CLAIM_NODES) claims.now }
    ensures { OnOk result
        (pieces.new.items ≡ pieces.old.items ++ entries_pieces g.now depth claims.now) }
{
    for i in 0..claims.len() {
        push_entry_at(alloc, pieces, g, depth, claims, i)?;
    }
    Ok(())
}

/// How many moves a book shows.
fn depth_words(alloc: Global, moves: u32) -> Result<Text, Memory>
    ensures { IfOk result (λ text. text ≡ depth_words moves) }
{
    let mut words = String::new(alloc);
    write!(
        words,
        "Moves shown: {moves}. Later positions are not in this file."
    )?;
    Ok(Text::from_string(words))
}

/// Adds how many moves a book shows, if it doesn't show all.
pub(crate) fn push_depth(
    alloc: Global,
    pieces: &mut Vec<Piece>,
    depth: Option<u32>,
) -> Result<(), Memory>
    ensures { OnOk result (pieces.new.items ≡ pieces.old.items ++ depth_pieces depth) }
{
    let Some(moves) = depth else {
        return Ok(());
    };
    let words = depth_words(alloc, moves)?;
    push_paragraph(alloc, pieces, words.as_str())
}

/// The attributes of the legend's section.
fn legend_attributes(alloc: Global) -> Result<Attributes, Memory>
    ensures { IfOk result (λ found. found ≡ legend_attributes) }
{
    Attributes::none(alloc)
        .words(alloc, Name::Id, LEGEND)?
        .words(alloc, Name::Class, "later")
}

/// Adds what marks and colours mean.
pub(crate) fn push_legend(alloc: Global, pieces: &mut Vec<Piece>) -> Result<(), Memory>
    ensures { OnOk result (pieces.new.items ≡ pieces.old.items ++ legend_pieces) }
{
    let attributes = legend_attributes(alloc)?;
    let tag = Tag::Section;
    pieces.push(Piece::Open { tag, attributes })?;
    push_plain(alloc, pieces, Tag::H2, "Legend")?;
    push_paragraph(alloc, pieces, LEGEND_MARKS)?;
    push_paragraph(alloc, pieces, LEGEND_LINKS)?;
    push_paragraph(alloc, pieces, LEGEND_PAIRS)?;
    push_paragraph(alloc, pieces, LEGEND_STEPS)?;
    push_paragraph(alloc, pieces, NOTHING_RUNS)?;
    push_close(pieces, Tag::Section)
}
