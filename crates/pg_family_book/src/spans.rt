//! Books of connectivity games.
ghost use Rattle.std.specs.Prelude.{◌≡◌, ◌<◌, ◌≤◌, ◌++◌, ◌∷◌, [], IfOk, OnOk, Some, length};
ghost use Rattle.std.specs.Prelude.{slice_get, string_bytes};
ghost use Rattle.pg_base.specs.declared.limits.TheConstants.{MAX_EDGES, MAX_MEMBERS};
ghost use Rattle.pg_family_book.specs.Spans.{ends_words, is_first, leaf_look, same_part};
ghost use Rattle.pg_family_book.specs.Spans.{span_book_text, span_by, span_heads, span_leaf};
ghost use Rattle.pg_family_book.specs.Spans.{span_leaves, span_role, span_row, span_row_by};
ghost use Rattle.pg_family_book.specs.Spans.{span_rows, span_scene, span_table, span_words};
ghost use Rattle.pg_family_book.specs.Spans.{first_words, part_of};
ghost use Rattle.pg_cert.specs.declared.limits.TheConstants.{MAX_CLAIMS};
ghost use Rattle.pg_draw.specs.Pictures.{picture_of};
ghost use Rattle.pg_graph.specs.Graph.{edge_count};
ghost use Rattle.pg_span.specs.declared.cert.SpanClaim.{SpanClaim as Claimed};

use crate::leaf::{Leaf, Rows, Table};
use crate::printing::print_leaves;
use crate::rules::{put_number, put_text, said_words, set_words, whose};
use pg_base::{Kind, MAX_EDGES, Memory};
use pg_captions::{Legend, Look, Text, Texts};
use pg_draw::draw;
use pg_picture::Picture;
use pg_scene::{scene_of_span_claim, span_scenes_can_be_laid_out};
use pg_span::{SpanBody, SpanCert, SpanClaim, SpanGame};
use std::alloc::Global;

/// What marks mean in books of connectivity games.
pub const LEGEND_EDGES: &str = "Thick edges are Maker's, and dotted ones Breaker's. Two sets of \
    edges are blue, and orange and dashed. An edge with a 1 in a ring is claimed first. A number \
    in a ring at a vertex is that of its part.";

/// What is said of an edge that is claimed first.
pub(crate) const CLAIMED_FIRST: &str = "Maker claims an edge first: see the last column.";

/// What is said of trees.
pub(crate) const JOINING: &str = "Maker has two sets of edges. Each of them joins all vertices \
    together with Maker's edges. If Breaker claims an edge of one set, Maker claims an edge of \
    the other that joins the two parts again; else any free edge.";

/// What is said of parts.
pub(crate) const PARTED: &str = "The vertices have the numbers of parts. Breaker claims free \
    edges between different parts while there are any: too few of them are left or Maker's to \
    join all parts.";

/// What the picture of a claim shows: no legend, since a page has its own.
fn leaf_look() -> Look
    ensures { result ≡ leaf_look }
{
    Look {
        numbers: true,
        lines: false,
        legend: Legend::Absent,
        size: None,
        blank: None,
        layout: None,
    }
}

/// The picture of the claim of that number, if there is one.
fn claim_picture(
    alloc: Global,
    g: &SpanGame,
    cert: &SpanCert,
    number: u32,
) -> Result<Option<Picture>, Memory>
    ensures { IfOk result (λ found. (claim : Claimed)
        → slice_get cert.now.claims number ≡ Some claim
        → found ≡ Some (picture_of leaf_look (span_scene g.now claim))) }
{
    span_scenes_can_be_laid_out();
    let look = leaf_look();
    match scene_of_span_claim(alloc, g, cert, number, None, look)? {
        Some(scene) => Ok(Some(draw(alloc, &scene, look)?)),
        None => Ok(None),
    }
}

/// Whether an edge is the one that is claimed first.
fn is_first(first: Option<u16>, edge: u16) -> bool
    ensures { result ≡ is_first first edge }
{
    match first {
        Some(chosen) => chosen == edge,
        None => false,
    }
}

/// The number of a vertex's part, or 0 if there is none.
fn part_of(numbers: &[u16], vertex: u16) -> u16
    ensures { result ≡ part_of numbers.now vertex }
{
    match numbers.get(usize::from(vertex)) {
        Some(part) => *part,
        None => 0,
    }
}

/// Whether both ends of an edge are in the same part.
fn same_part(numbers: &[u16], ends: (u16, u16)) -> bool
    ensures { result ≡ same_part numbers.now ends }
{
    part_of(numbers, ends.0) == part_of(numbers, ends.1)
}

/// What an edge is in a claim.
fn span_role(body: &SpanBody, edge: u16, ends: (u16, u16)) -> &'static str
    requires { edge < MAX_MEMBERS }
    ensures { result.now ≡ span_role body.now edge ends }
{
    match body {
        SpanBody::Trees { first, a1, a2 } => {
            if is_first(*first, edge) {
                return "claimed first";
            }
            set_words(a1, a2, edge)
        }
        SpanBody::Parts(numbers) => {
            if same_part(numbers.as_slice(), ends) {
                return "inside a part";
            }
            "between parts"
        }
    }
}

/// Adds the ends of an edge to a list.
fn put_ends(alloc: Global, texts: &mut Vec<Text>, ends: (u16, u16)) -> Result<(), Memory>
    ensures { OnOk result (texts.new.items ≡ texts.old.items ++ ends_words ends ∷ []) }
{
    let (one, other) = ends;
    let words = Text::from_string(format!(in alloc; "{one} and {other}")?);
    texts.push(words)?;
    Ok(())
}

/// The row of an edge.
fn span_row(
    alloc: Global,
    g: &SpanGame,
    body: &SpanBody,
    edge: u16,
    ends: (u16, u16),
) -> Result<Texts, Memory>
    requires { edge < MAX_MEMBERS }
    ensures { IfOk result (λ row. row ≡ span_row g.now body.now edge ends) }
{
    let mut cells = Vec::new(alloc);
    put_number(alloc, &mut cells, edge)?;
    put_ends(alloc, &mut cells, ends)?;
    put_text(
        alloc,
        &mut cells,
        whose(Kind::MakerBreaker, &g.x, &g.y, edge),
    )?;
    put_text(alloc, &mut cells, span_role(body, edge, ends))?;
    Ok(Texts::from_vec(cells))
}

/// Adds the row of an edge, if there is one.
fn put_row_by(
    alloc: Global,
    rows: &mut Vec<Texts>,
    g: &SpanGame,
    body: &SpanBody,
    edge: u16,
    ends: Option<(u16, u16)>,
) -> Result<(), Memory>
    requires { edge < MAX_MEMBERS }
    ensures { OnOk result
        (rows.new.items ≡ rows.old.items ++ span_row_by g.now body.now edge ends) }
{
    if let Some(ends) = ends {
        rows.push(span_row(alloc, g, body, edge, ends)?)?;
    }
    Ok(())
}

/// The ends of the edge of that number, if there is one.
fn ends_at(ends: &[(u16, u16)], edge: u16) -> Option<(u16, u16)>
    ensures { result ≡ slice_get ends.now edge }
{
    ends.get(usize::from(edge)).copied()
}

/// How many edges the game has.
fn edge_count(g: &SpanGame) -> u16
    ensures count { result ≡ edge_count g.now.graph }
    ensures few { result ≤ MAX_EDGES }
{
    g.graph.edge_count()
}

/// The rows of all edges.
fn span_rows(alloc: Global, g: &SpanGame, body: &SpanBody) -> Result<Vec<Texts>, Memory>
    ensures { IfOk result (λ rows. rows.items ≡ span_rows g.now body.now) }
{
    let mut rows = Vec::new(alloc);
    let ends = g.graph.ends.as_slice();
    for edge in 0..edge_count(g) {
        put_row_by(alloc, &mut rows, g, body, edge, ends_at(ends, edge))?;
    }
    Ok(rows)
}

/// The headings of the columns.
fn span_heads(alloc: Global) -> Result<Texts, Memory>
    ensures { IfOk result (λ heads. heads ≡ span_heads) }
{
    let mut heads = Vec::new(alloc);
    put_text(alloc, &mut heads, "Edge")?;
    put_text(alloc, &mut heads, "Between")?;
    put_text(alloc, &mut heads, "Whose")?;
    put_text(alloc, &mut heads, "In the proof")?;
    Ok(Texts::from_vec(heads))
}

/// The table of a claim.
fn span_table(alloc: Global, g: &SpanGame, body: &SpanBody) -> Result<Table, Memory>
    ensures { IfOk result (λ table. table ≡ span_table g.now body.now) }
{
    let heads = span_heads(alloc)?;
    let rows = Rows::from_vec(span_rows(alloc, g, body)?);
    Ok(Table { heads, rows })
}

/// Adds that an edge is claimed first, if one is.
fn put_first(alloc: Global, texts: &mut Vec<Text>, first: Option<u16>) -> Result<(), Memory>
    ensures { OnOk result (texts.new.items ≡ texts.old.items ++ first_words first) }
{
    match first {
        Some(_) => put_text(alloc, texts, CLAIMED_FIRST),
        None => Ok(()),
    }
}

/// Adds the rule of a claim.
fn put_rule(alloc: Global, texts: &mut Vec<Text>, body: &SpanBody) -> Result<(), Memory>
    ensures { OnOk result (texts.new.items ≡ texts.old.items ++ span_words body.now) }
{
    match body {
        SpanBody::Trees { first, .. } => {
            put_first(alloc, texts, *first)?;
            put_text(alloc, texts, JOINING)
        }
        SpanBody::Parts(_) => put_text(alloc, texts, PARTED),
    }
}

/// The rule of a claim.
fn span_words(alloc: Global, body: &SpanBody) -> Result<Texts, Memory>
    ensures { IfOk result (λ words. words ≡ span_words body.now) }
{
    let mut texts = Vec::new(alloc);
    put_rule(alloc, &mut texts, body)?;
    Ok(Texts::from_vec(texts))
}

/// The page of a claim with this picture.
fn span_leaf(
    alloc: Global,
    g: &SpanGame,
    claim: &SpanClaim,
    number: u32,
    picture: Option<Picture>,
) -> Result<Leaf, Memory>
    ensures { IfOk result (λ leaf. leaf ≡ span_leaf g.now claim.now number picture) }
{
    let said = said_words(alloc, Kind::MakerBreaker, claim.side, claim.turn)?;
    let words = span_words(alloc, &claim.body)?;
    let table = span_table(alloc, g, &claim.body)?;
    Ok(Leaf {
        number,
        said,
        picture,
        words,
        table,
    })
}

/// Adds the page of the claim of that number.
fn put_leaf(
    alloc: Global,
    leaves: &mut Vec<Leaf>,
    g: &SpanGame,
    cert: &SpanCert,
    number: u32,
) -> Result<(), Memory>
    ensures { OnOk result
        (leaves.new.items
        ≡ leaves.old.items ++ span_by g.now number (slice_get cert.now.claims number)) }
{
    let picture = claim_picture(alloc, g, cert, number)?;
    if let Some(claim) = cert.claims.as_slice().get(number as usize) {
        leaves.push(span_leaf(alloc, g, claim, number, picture)?)?;
    }
    Ok(())
}

/// The pages of all claims.
fn span_leaves(alloc: Global, g: &SpanGame, cert: &SpanCert) -> Result<Vec<Leaf>, Memory>
    requires { length cert.now.claims ≤ MAX_CLAIMS }
    ensures { IfOk result (λ leaves. leaves.items ≡ span_leaves g.now cert.now) }
{
    let mut leaves = Vec::new(alloc);
    let count = cert.claims.as_slice().len() as u32;
    for number in 0..count {
        put_leaf(alloc, &mut leaves, g, cert, number)?;
    }
    Ok(leaves)
}

/// Returns the text of a book of a connectivity game's certificate, in HTML: a section for each
/// claim, with its picture, its rule, and a table of the edges. A certificate has at most eight
/// claims.
///
/// # Errors
///
/// `Memory` if no memory is found.
pub fn print_span_book(alloc: Global, game: &SpanGame, cert: &SpanCert) -> Result<String, Memory>
    requires { length cert.now.claims ≤ MAX_CLAIMS }
    ensures { IfOk result (λ text. string_bytes text ≡ span_book_text game.now cert.now) }
{
    let leaves = span_leaves(alloc, game, cert)?;
    print_leaves(alloc, LEGEND_EDGES, leaves.as_slice())
}
