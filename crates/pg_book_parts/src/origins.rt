//! How positions come about: the page before, and what is done there.
ghost use Rattle.std.specs.Prelude.{◌≡◌, ◌≤◌, ◌++◌, IfOk, OnOk};
ghost use Rattle.pg_book_parts.specs.Origins.{origin_at, origin_if, origin_in, origin_lead};
ghost use Rattle.pg_book_parts.specs.Origins.{origin_of, origin_pieces, reply_origin};

use crate::chapter::{Page, push_link};
use crate::layout::Layout;
use crate::words::act_words;
use pg_base::{Memory, Side};
use pg_cert::{Body, Claim, Reply};
use pg_page::{Attributes, Name, Piece, Tag, push_close, push_words};
use pg_picture::Text;
use std::alloc::Global;

/// What leads to a position.
#[derive(Clone, Copy, Debug, PartialEq, Eq)]
pub struct Origin {
    /// The node before it.
    pub node: u32,
    /// The side that moves there.
    pub side: Side,
    /// The point that it claims, or None if the node before it says that it is no worse.
    pub point: Option<u16>,
}

/// What leads to a position, if that node is it.
fn origin_if(is: bool, origin: Origin) -> Option<Origin>
    ensures { result ≡ origin_if is origin }
{
    if is { Some(origin) } else { None }
}

/// The first reply that leads to that child.
fn reply_origin(node: u32, side: Side, replies: &[Reply], child: u32) -> Option<Origin>
    ensures { result ≡ reply_origin node side child replies.now }
{
    for reply in replies {
        if reply.child == child {
            let point = Some(reply.point);
            return Some(Origin { node, side, point });
        }
    }
    None
}

/// What leads from a node of a claim of that side to that child, if something does.
fn origin_in(node: u32, side: Side, child: u32, body: &Body) -> Option<Origin>
    ensures { result ≡ origin_in node side child body.now }
{
    match body {
        Body::Move { point, child: next } => {
            let point = Some(*point);
            origin_if(*next == child, Origin { node, side, point })
        }
        Body::All(replies) => reply_origin(node, side.other(), replies.as_slice(), child),
        Body::Weaker { child: next } => {
            let point = None;
            origin_if(*next == child, Origin { node, side, point })
        }
        _ => None,
    }
}

/// What leads from the node of that page to that child, if something does.
fn origin_at(claim: &Claim, count: u32, child: u32, number: u32) -> Option<Origin>
    requires { number ≤ count }
    ensures { result ≡ origin_at claim.now count child number }
{
    let node = count - number;
    match claim.nodes.as_slice().get(node as usize) {
        Some(before) => origin_in(node, claim.side, child, &before.body),
        None => None,
    }
}

/// What leads to the node of a page, on the first page that does.
fn origin_of(claim: &Claim, page: Page) -> Option<Origin>
    requires { page.number ≤ page.chapter.count }
    ensures { result ≡ origin_of claim.now page.chapter page.number }
{
    let count = page.chapter.count;
    let child = count - page.number;
    for number in 1..page.number {
        if let Some(origin) = origin_at(claim, count, child, number) {
            return Some(origin);
        }
    }
    None
}

/// What is said before the link to the page before.
fn origin_lead(alloc: Global, layout: &Layout, origin: Origin) -> Result<Text, Memory>
    ensures { IfOk result (λ text. text ≡ origin_lead layout.now origin) }
{
    let mut words = String::new(alloc);
    match origin.point {
        Some(point) => {
            words.push_str("After ")?;
            let act = act_words(alloc, layout, origin.side, " claims ", point)?;
            words.push_str(act.as_str())?;
            words.push_str(", on ")?;
        }
        None => words.push_str("Compared with the position on ")?,
    }
    Ok(Text::from_string(words))
}

/// Adds what leads to the node of a page, with a link to the page before, if there is one. An error
/// means that memory ran out.
pub fn push_origin(
    alloc: Global,
    pieces: &mut Vec<Piece>,
    layout: &Layout,
    claim: &Claim,
    page: Page,
) -> Result<(), Memory>
    requires { page.number ≤ page.chapter.count }
    ensures { OnOk result
        (pieces.new.items
        ≡ pieces.old.items
        ++ origin_pieces layout.now page.chapter (origin_of claim.now page.chapter page.number)) }
{
    let Some(origin) = origin_of(claim, page) else {
        return Ok(());
    };
    let attributes = Attributes::none(alloc).words(alloc, Name::Class, "from")?;
    let tag = Tag::P;
    pieces.push(Piece::Open { tag, attributes })?;
    let lead = origin_lead(alloc, layout, origin)?;
    push_words(alloc, pieces, lead.as_str())?;
    push_link(alloc, pieces, page.chapter, origin.node)?;
    push_close(pieces, Tag::P)
}
