//! What the page of a node says.
ghost use Rattle.std.specs.Prelude.{◌≡◌, ◌++◌, IfOk, OnOk, slice_get};
ghost use Rattle.std.specs.List.{flat_map};
ghost use Rattle.pg_book_parts.specs.Elements.{paragraph};
ghost use Rattle.pg_book.specs.Sentences.{body_pieces, move_pieces, point_lead, replies_pieces};
ghost use Rattle.pg_book.specs.Sentences.{reply_pieces, step_by, step_words, steps_pieces};
ghost use Rattle.pg_book.specs.Sentences.{threat_pieces, weaker_lead, weaker_pieces, weights_does};
ghost use Rattle.pg_book_parts.specs.Words.{side_words};

use pg_base::{Kind, Memory, Side};
use pg_book_parts::{
    Chapter, Layout, act_words, push_link, push_paragraph, push_plain, put_point, side_words,
};
use pg_captions::side_name;
use pg_cert::{Body, Reply};
use pg_page::{Piece, Tag, push_close, push_open, push_words};
use pg_picture::Text;
use std::alloc::Global;

/// What is said of a claimer when the game is over.
pub(crate) const OVER: &str = " has reached the goal: the game is over.";

/// What is said of a side whose replies are all answered.
pub(crate) const REPLIES: &str = " is to move. Each reply is answered: choose one.";

/// What is said of a claimer that plays by pairs.
pub(crate) const PAIRED: &str = " answers a point of a pair with the other. Choose points.";

/// What is said of a claimer that plays by weights.
pub(crate) const WEIGHTS: &str = " plays by weights: it claims a free point of greatest weight.";

/// What is said of an avoider that plays by weights.
pub(crate) const WEIGHTS_TO_AVOID: &str =
    " plays by weights: it claims a free point of least weight.";

/// What is said of a claimer that plays by two trees.
pub(crate) const TREES: &str = " has two sets of edges, each with a way between the terminals. \
    If an edge of one is taken, it claims one of the other that joins the two parts again.";

/// What is said of a claimer that plays by two cuts.
pub(crate) const CUTS: &str = " has two sets of edges. If an edge of one is claimed, it takes one \
    of the other, so that no way between the terminals comes about.";

/// What is said of a claimer that plays a threat line.
pub(crate) const THREATS: &str = " wins by threats, each of which has one answer.";

/// Adds a paragraph on what a side does.
fn push_doing(
    alloc: Global,
    pieces: &mut Vec<Piece>,
    layout: &Layout,
    side: Side,
    does: &str,
) -> Result<(), Memory>
    ensures { OnOk result
        (pieces.new.items
        ≡ pieces.old.items ++ paragraph (side_words layout.now.kind side does.now)) }
{
    let words = side_words(alloc, layout.kind, side, does)?;
    push_paragraph(alloc, pieces, words.as_str())
}

/// Adds a move, with a link to what follows.
fn push_move(
    alloc: Global,
    pieces: &mut Vec<Piece>,
    layout: &Layout,
    side: Side,
    chapter: Chapter,
    point: u16,
    child: u32,
) -> Result<(), Memory>
    ensures { OnOk result
        (pieces.new.items ≡ pieces.old.items ++ move_pieces layout.now side chapter point child) }
{
    push_open(alloc, pieces, Tag::P)?;
    let words = act_words(alloc, layout, side, " claims ", point)?;
    push_plain(alloc, pieces, Tag::Strong, words.as_str())?;
    push_words(alloc, pieces, ". Go on: ")?;
    push_link(alloc, pieces, chapter, child)?;
    push_close(pieces, Tag::P)
}

/// A point, and what is before a link.
fn point_lead(alloc: Global, layout: &Layout, point: u16) -> Result<Text, Memory>
    ensures { IfOk result (λ text. text ≡ point_lead layout.now point) }
{
    let mut words = String::new(alloc);
    put_point(&mut words, layout, point)?;
    words.push_str(": ")?;
    Ok(Text::from_string(words))
}

/// Adds a reply, with a link to what follows.
fn push_reply(
    alloc: Global,
    pieces: &mut Vec<Piece>,
    layout: &Layout,
    chapter: Chapter,
    reply: Reply,
) -> Result<(), Memory>
    ensures { OnOk result
        (pieces.new.items ≡ pieces.old.items ++ reply_pieces layout.now chapter reply) }
{
    push_open(alloc, pieces, Tag::Li)?;
    let lead = point_lead(alloc, layout, reply.point)?;
    push_words(alloc, pieces, lead.as_str())?;
    push_link(alloc, pieces, chapter, reply.child)?;
    push_close(pieces, Tag::Li)
}

/// Adds replies in order.
fn push_each_reply(
    alloc: Global,
    pieces: &mut Vec<Piece>,
    layout: &Layout,
    chapter: Chapter,
    replies: &[Reply],
) -> Result<(), Memory>
    ensures { OnOk result
        (pieces.new.items
        ≡ pieces.old.items ++ flat_map (reply_pieces layout.now chapter) replies.now) }
{
    for reply in replies {
        push_reply(alloc, pieces, layout, chapter, *reply)?;
    }
    Ok(())
}

/// Adds the replies to a move, with links to what follows.
fn push_replies(
    alloc: Global,
    pieces: &mut Vec<Piece>,
    layout: &Layout,
    side: Side,
    chapter: Chapter,
    replies: &[Reply],
) -> Result<(), Memory>
    ensures { OnOk result
        (pieces.new.items
        ≡ pieces.old.items ++ replies_pieces layout.now side chapter replies.now) }
{
    push_doing(alloc, pieces, layout, side.other(), REPLIES)?;
    push_open(alloc, pieces, Tag::Ul)?;
    push_each_reply(alloc, pieces, layout, chapter, replies)?;
    push_close(pieces, Tag::Ul)
}

/// The point of that number of a threat line: the claimer's points and the forced ones in turn.
fn step_words(
    alloc: Global,
    layout: &Layout,
    side: Side,
    i: usize,
    point: u16,
) -> Result<Text, Memory>
    ensures { IfOk result (λ text. text ≡ step_words layout.now side i point) }
{
    if i % 2 == 0 {
        act_words(alloc, layout, side, " claims ", point)
    } else {
        act_words(alloc, layout, side.other(), " must claim ", point)
    }
}

/// The point of that number of a threat line, if there is one.
fn step_at(points: &[u16], i: usize) -> Option<u16>
    ensures { result ≡ slice_get points.now i }
{
    points.get(i).copied()
}

/// Adds the point of that number of a threat line, if there is one.
fn push_step_by(
    alloc: Global,
    pieces: &mut Vec<Piece>,
    layout: &Layout,
    side: Side,
    i: usize,
    point: Option<u16>,
) -> Result<(), Memory>
    ensures { OnOk result
        (pieces.new.items ≡ pieces.old.items ++ step_by layout.now side i point) }
{
    let Some(point) = point else {
        return Ok(());
    };
    let words = step_words(alloc, layout, side, i, point)?;
    push_plain(alloc, pieces, Tag::Li, words.as_str())
}

/// Adds the points of a threat line.
fn push_steps(
    alloc: Global,
    pieces: &mut Vec<Piece>,
    layout: &Layout,
    side: Side,
    points: &[u16],
) -> Result<(), Memory>
    ensures { OnOk result
        (pieces.new.items ≡ pieces.old.items ++ steps_pieces layout.now side points.now) }
{
    for i in 0..points.len() {
        push_step_by(alloc, pieces, layout, side, i, step_at(points, i))?;
    }
    Ok(())
}

/// Adds a threat line.
fn push_threat(
    alloc: Global,
    pieces: &mut Vec<Piece>,
    layout: &Layout,
    side: Side,
    points: &[u16],
) -> Result<(), Memory>
    ensures { OnOk result
        (pieces.new.items ≡ pieces.old.items ++ threat_pieces layout.now side points.now) }
{
    push_doing(alloc, pieces, layout, side, THREATS)?;
    push_open(alloc, pieces, Tag::Ol)?;
    push_steps(alloc, pieces, layout, side, points)?;
    push_close(pieces, Tag::Ol)
}

/// How a claimer plays by weights.
fn weights_does(kind: Kind) -> &'static str
    ensures { result.now ≡ weights_does kind }
{
    match kind {
        Kind::AvoiderEnforcer => WEIGHTS_TO_AVOID,
        Kind::MakerBreaker | Kind::MakerMaker | Kind::Switching => WEIGHTS,
    }
}

/// What is before the link to a weaker position.
fn weaker_lead(alloc: Global, kind: Kind, side: Side) -> Result<Text, Memory>
    ensures { IfOk result (λ text. text ≡ weaker_lead kind side) }
{
    let mut words = String::new(alloc);
    words.push_str("This is no worse for ")?;
    words.push_str(side_name(kind, side))?;
    words.push_str(" than ")?;
    Ok(Text::from_string(words))
}

/// Adds that a position is no worse than that of another node.
fn push_weaker(
    alloc: Global,
    pieces: &mut Vec<Piece>,
    layout: &Layout,
    side: Side,
    chapter: Chapter,
    child: u32,
) -> Result<(), Memory>
    ensures { OnOk result
        (pieces.new.items ≡ pieces.old.items ++ weaker_pieces layout.now.kind side chapter child) }
{
    push_open(alloc, pieces, Tag::P)?;
    let lead = weaker_lead(alloc, layout.kind, side)?;
    push_words(alloc, pieces, lead.as_str())?;
    push_link(alloc, pieces, chapter, child)?;
    push_close(pieces, Tag::P)
}

/// Adds what a body says.
pub(crate) fn push_body(
    alloc: Global,
    pieces: &mut Vec<Piece>,
    layout: &Layout,
    side: Side,
    chapter: Chapter,
    body: &Body,
) -> Result<(), Memory>
    ensures { OnOk result
        (pieces.new.items ≡ pieces.old.items ++ body_pieces layout.now side chapter body.now) }
{
    match body {
        Body::Over => push_doing(alloc, pieces, layout, side, OVER),
        Body::Move { point, child } => {
            push_move(alloc, pieces, layout, side, chapter, *point, *child)
        }
        Body::All(replies) => push_replies(
            alloc,
            pieces,
            layout,
            side,
            chapter,
            replies.as_slice(),
        ),
        Body::Pairs(_) => push_doing(alloc, pieces, layout, side, PAIRED),
        Body::Potential => push_doing(alloc, pieces, layout, side, weights_does(layout.kind)),
        Body::Trees { .. } => push_doing(alloc, pieces, layout, side, TREES),
        Body::Cuts { .. } => push_doing(alloc, pieces, layout, side, CUTS),
        Body::Threat(points) => push_threat(alloc, pieces, layout, side, points.as_slice()),
        Body::Weaker { child } => push_weaker(alloc, pieces, layout, side, chapter, *child),
    }
}
