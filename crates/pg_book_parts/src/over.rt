//! Links and choices over pictures.
ghost use Rattle.std.specs.Prelude.{◌≡◌, ◌++◌, ◌∷◌, [], IfOk, OnOk, slice_get};
ghost use Rattle.pg_page.specs.Html.{worded};
ghost use Rattle.pg_page.specs.declared.attribute.Name.TheVariants.{Class};
ghost use Rattle.pg_page.specs.declared.piece.Piece.TheVariants.{Open};
ghost use Rattle.pg_page.specs.declared.tag.Tag.TheVariants.{G};
ghost use Rattle.pg_book_parts.specs.Chapters.{page_id};
ghost use Rattle.pg_book_parts.specs.Pictures.{around_pieces, button_pieces, choice_pieces};
ghost use Rattle.pg_book_parts.specs.Pictures.{chosen_pieces};
ghost use Rattle.pg_book_parts.specs.Pictures.{circle_pieces, clicked_pieces, group_text};
ghost use Rattle.pg_book_parts.specs.Pictures.{input_pieces, square_attributes};
ghost use Rattle.pg_book_parts.specs.Pictures.{mark_pieces, over_pieces, pair_by, pair_pieces};
ghost use Rattle.pg_book_parts.specs.Pictures.{pairs_pieces, ring_pieces, rings_pieces, side_class};
ghost use Rattle.pg_book_parts.specs.Pictures.{side_letter};

use crate::chapter::{Chapter, Page, page_id};
use crate::elements::push_labelled;
use crate::layout::Layout;
use crate::words::act_words;
use pg_base::{Memory, Pair, Side};
use pg_cert::{Body, Reply};
use pg_page::{Attributes, LoneTag, Name, Piece, Tag, push_close};
use pg_picture::{Place, Text};
use pg_places::{CELL, HALF};
use pg_scene::Board;
use std::alloc::Global;
use std::fmt::Write;

/// The radius of a mark.
pub const MARK_RADIUS: u32 = 16;

/// The radius of a ring that leads to a page, around a disc.
pub const RING_RADIUS: u32 = 20;

/// The radius of a ring that leads to a page, around the place of an edge.
pub const EDGE_RADIUS: u32 = 12;

/// How far a square that leads to a page reaches from the middle of its cell.
pub const SQUARE_HALF: u32 = 21;

/// The side of a square that leads to a page.
pub const SQUARE_SIDE: u32 = 42;

/// Adds a circle of that class around a place.
fn push_circle(
    alloc: Global,
    pieces: &mut Vec<Piece>,
    class: &str,
    radius: u32,
    place: Place,
) -> Result<(), Memory>
    ensures { OnOk result
        (pieces.new.items ≡ pieces.old.items ++ circle_pieces class.now radius place) }
{
    let attributes = Attributes::none(alloc)
        .words(alloc, Name::Class, class)?
        .number(alloc, Name::Cx, place.across)?
        .number(alloc, Name::Cy, place.down)?
        .number(alloc, Name::R, radius)?;
    let tag = LoneTag::Circle;
    pieces.push(Piece::Lone { tag, attributes })?;
    Ok(())
}

/// The attributes and those of a square around a place.
fn squared(
    alloc: Global,
    attributes: Attributes,
    half: u32,
    side: u32,
    place: Place,
) -> Result<Attributes, Memory>
    ensures { IfOk result (λ found. found ≡ attributes ++ square_attributes half side place) }
{
    let corner = attributes
        .number(alloc, Name::X, place.across.saturating_sub(half))?
        .number(alloc, Name::Y, place.down.saturating_sub(half))?;
    corner
        .number(alloc, Name::Width, side)?
        .number(alloc, Name::Height, side)
}

/// Adds a square in the cell of a place, which is clicked.
fn push_square(alloc: Global, pieces: &mut Vec<Piece>, place: Place) -> Result<(), Memory>
    ensures { OnOk result (pieces.new.items ≡ pieces.old.items ++ clicked_pieces place) }
{
    let begun = Attributes::none(alloc).words(alloc, Name::Class, "reply")?;
    let attributes = squared(alloc, begun, SQUARE_HALF, SQUARE_SIDE, place)?;
    let tag = LoneTag::Rect;
    pieces.push(Piece::Lone { tag, attributes })?;
    Ok(())
}

/// Adds what is clicked around a place: a square in a cell, else a ring.
fn push_around(
    alloc: Global,
    pieces: &mut Vec<Piece>,
    board: &Board,
    place: Place,
) -> Result<(), Memory>
    ensures { OnOk result
        (pieces.new.items ≡ pieces.old.items ++ around_pieces board.now place) }
{
    match board {
        Board::Grid { .. } => push_square(alloc, pieces, place),
        Board::Ring { .. } | Board::Laid { .. } | Board::Table { .. } => {
            push_circle(alloc, pieces, "reply", RING_RADIUS, place)
        }
        Board::Graph { .. } => push_circle(alloc, pieces, "reply", EDGE_RADIUS, place),
    }
}

/// Adds what is clicked around a point, which leads to the page of a node, if the book has it.
fn push_ring(
    alloc: Global,
    pieces: &mut Vec<Piece>,
    layout: &Layout,
    chapter: Chapter,
    point: u16,
    child: u32,
) -> Result<(), Memory>
    ensures { OnOk result
        (pieces.new.items
        ≡ pieces.old.items ++ ring_pieces layout.now chapter point child) }
{
    if !chapter.has_page(child) {
        return Ok(());
    }
    let id = page_id(alloc, chapter, chapter.page_of(child))?;
    let attributes = Attributes::none(alloc)
        .text(Name::Href, id)?
        .words(alloc, Name::Tabindex, "-1")?;
    let tag = Tag::A;
    pieces.push(Piece::Open { tag, attributes })?;
    push_around(alloc, pieces, &layout.board, layout.place_of(point))?;
    push_close(pieces, Tag::A)
}

/// Adds what is clicked for each reply.
fn push_rings(
    alloc: Global,
    pieces: &mut Vec<Piece>,
    layout: &Layout,
    chapter: Chapter,
    replies: &[Reply],
) -> Result<(), Memory>
    ensures { OnOk result
        (pieces.new.items
        ≡ pieces.old.items ++ rings_pieces layout.now chapter replies.now) }
{
    for reply in replies {
        push_ring(alloc, pieces, layout, chapter, reply.point, reply.child)?;
    }
    Ok(())
}

/// The class of a side's points.
fn side_class(side: Side) -> &'static str
    ensures { result.now ≡ side_class side }
{
    match side {
        Side::X => "of-x",
        Side::Y => "of-y",
    }
}

/// The letter of a side.
fn side_letter(side: Side) -> &'static str
    ensures { result.now ≡ side_letter side }
{
    match side {
        Side::X => "X",
        Side::Y => "Y",
    }
}

/// Adds a side's mark at a place.
fn push_mark(alloc: Global, pieces: &mut Vec<Piece>, side: Side, place: Place) -> Result<(), Memory>
    ensures { OnOk result (pieces.new.items ≡ pieces.old.items ++ mark_pieces side place) }
{
    push_circle(alloc, pieces, side_class(side), MARK_RADIUS, place)?;
    let attributes = Attributes::none(alloc)
        .words(alloc, Name::Class, "mark")?
        .number(alloc, Name::X, place.across)?
        .number(alloc, Name::Y, place.down)?;
    push_labelled(alloc, pieces, Tag::Text, attributes, side_letter(side))
}

/// Adds a button, one of a group.
fn push_input(
    alloc: Global,
    pieces: &mut Vec<Piece>,
    group: &str,
    label: &str,
) -> Result<(), Memory>
    ensures { OnOk result
        (pieces.new.items ≡ pieces.old.items ++ input_pieces group.now label.now) }
{
    let attributes = Attributes::none(alloc)
        .words(alloc, Name::Type, "radio")?
        .words(alloc, Name::Name, group)?
        .words(alloc, Name::AriaLabel, label)?;
    let tag = LoneTag::Input;
    pieces.push(Piece::Lone { tag, attributes })?;
    Ok(())
}

/// Adds a button over the cell of a place, one of a group.
fn push_button(
    alloc: Global,
    pieces: &mut Vec<Piece>,
    group: &str,
    label: &str,
    place: Place,
) -> Result<(), Memory>
    ensures { OnOk result
        (pieces.new.items ≡ pieces.old.items ++ button_pieces group.now label.now place) }
{
    let attributes = squared(alloc, Attributes::none(alloc), HALF, CELL, place)?;
    let tag = Tag::ForeignObject;
    pieces.push(Piece::Open { tag, attributes })?;
    push_input(alloc, pieces, group, label)?;
    push_close(pieces, Tag::ForeignObject)
}

/// Adds a group of shapes of that class, which is still open.
fn open_group(alloc: Global, pieces: &mut Vec<Piece>, class: &str) -> Result<(), Memory>
    ensures { OnOk result
        (pieces.new.items
        ≡ pieces.old.items ++ Open G (worded Class class.now ∷ []) ∷ []) }
{
    let attributes = Attributes::none(alloc).words(alloc, Name::Class, class)?;
    let tag = Tag::G;
    pieces.push(Piece::Open { tag, attributes })?;
    Ok(())
}

/// Adds what is shown once the other side has chosen a point: its mark, and that of the answer.
fn push_chosen(
    alloc: Global,
    pieces: &mut Vec<Piece>,
    layout: &Layout,
    side: Side,
    point: u16,
    answer: u16,
) -> Result<(), Memory>
    ensures { OnOk result
        (pieces.new.items ≡ pieces.old.items ++ chosen_pieces layout.now side point answer) }
{
    open_group(alloc, pieces, "chosen")?;
    push_mark(alloc, pieces, side.other(), layout.place_of(point))?;
    push_mark(alloc, pieces, side, layout.place_of(answer))?;
    push_close(pieces, Tag::G)
}

/// Adds the other side's choice of a point, and the claimer's answer.
fn push_choice(
    alloc: Global,
    pieces: &mut Vec<Piece>,
    layout: &Layout,
    side: Side,
    group: &str,
    point: u16,
    answer: u16,
) -> Result<(), Memory>
    ensures { OnOk result
        (pieces.new.items
        ≡ pieces.old.items ++ choice_pieces layout.now side group.now point answer) }
{
    let label = act_words(alloc, layout, side.other(), " claims ", point)?;
    open_group(alloc, pieces, "choice")?;
    push_button(alloc, pieces, group, label.as_str(), layout.place_of(point))?;
    push_chosen(alloc, pieces, layout, side, point, answer)?;
    push_close(pieces, Tag::G)
}

/// Adds the two choices of a pair.
fn push_pair(
    alloc: Global,
    pieces: &mut Vec<Piece>,
    layout: &Layout,
    side: Side,
    group: &str,
    pair: Pair,
) -> Result<(), Memory>
    ensures { OnOk result
        (pieces.new.items ≡ pieces.old.items ++ pair_pieces layout.now side group.now pair) }
{
    push_choice(alloc, pieces, layout, side, group, pair.a, pair.b)?;
    push_choice(alloc, pieces, layout, side, group, pair.b, pair.a)
}

/// The name of a pair's group on a page.
fn group_of(alloc: Global, page: &str, i: usize) -> Result<Text, Memory>
    ensures { IfOk result (λ text. text ≡ group_text page.now i) }
{
    let mut name = String::new(alloc);
    name.push_str(page)?;
    write!(name, "-{i}")?;
    Ok(Text::from_string(name))
}

/// The pair of that number, if there is one.
fn pair_at(pairs: &[Pair], i: usize) -> Option<Pair>
    ensures { result ≡ slice_get pairs.now i }
{
    pairs.get(i).copied()
}

/// Adds the pair of that number, if there is one.
fn push_pair_by(
    alloc: Global,
    pieces: &mut Vec<Piece>,
    layout: &Layout,
    side: Side,
    page: &str,
    i: usize,
    pair: Option<Pair>,
) -> Result<(), Memory>
    ensures { OnOk result
        (pieces.new.items ≡ pieces.old.items ++ pair_by layout.now side page.now i pair) }
{
    let Some(pair) = pair else {
        return Ok(());
    };
    let group = group_of(alloc, page, i)?;
    push_pair(alloc, pieces, layout, side, group.as_str(), pair)
}

/// Adds pairs in order.
fn push_each_pair(
    alloc: Global,
    pieces: &mut Vec<Piece>,
    layout: &Layout,
    side: Side,
    page: &str,
    pairs: &[Pair],
) -> Result<(), Memory>
    ensures { OnOk result
        (pieces.new.items
        ≡ pieces.old.items ++ pairs_pieces layout.now side page.now pairs.now) }
{
    for i in 0..pairs.len() {
        push_pair_by(alloc, pieces, layout, side, page, i, pair_at(pairs, i))?;
    }
    Ok(())
}

/// Adds the pairs of a page.
fn push_pairs(
    alloc: Global,
    pieces: &mut Vec<Piece>,
    layout: &Layout,
    side: Side,
    page: Page,
    pairs: &[Pair],
) -> Result<(), Memory>
    ensures { OnOk result
        (pieces.new.items
        ≡ pieces.old.items
        ++ pairs_pieces layout.now side (page_id page.chapter page.number) pairs.now) }
{
    let id = page_id(alloc, page.chapter, page.number)?;
    push_each_pair(alloc, pieces, layout, side, id.as_str(), pairs)
}

/// Adds what is over the picture of a node: links of a move and of replies, and choices of pairs.
/// An error means that memory ran out.
pub fn push_over(
    alloc: Global,
    pieces: &mut Vec<Piece>,
    layout: &Layout,
    side: Side,
    page: Page,
    body: &Body,
) -> Result<(), Memory>
    ensures { OnOk result
        (pieces.new.items
        ≡ pieces.old.items ++ over_pieces layout.now side page.chapter page.number body.now) }
{
    match body {
        Body::Move { point, child } => {
            push_ring(alloc, pieces, layout, page.chapter, *point, *child)
        }
        Body::All(replies) => push_rings(alloc, pieces, layout, page.chapter, replies.as_slice()),
        Body::Pairs(pairs) => push_pairs(alloc, pieces, layout, side, page, pairs.as_slice()),
        _ => Ok(()),
    }
}
