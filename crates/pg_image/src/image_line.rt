//! The line of an image.
ghost use Rattle.std.specs.Prelude.{◌≡◌, nat_lt, if◌then◌else◌, Some, None, option_map};
ghost use Rattle.pg_image.specs.Prelude.{Gives, numbered, MAP_COUNT};
ghost use Rattle.pg_image.specs.ImageLine.{image_line, image_by, image_said};
ghost use Rattle.pg_image.specs.Views.{line_view};

use crate::node::ImageNode;
use pg_cert::{Body, Node, Part};
use pg_cert_lines::{Fault, Form, Outline, read_node, turn_of};
use pg_maps::GridMap;
use pg_text::{LineError, first_word, four_parts};
use std::alloc::Global;

/// A line whose body begins with the word `image`, cut where its signs stand.
#[derive(Drop)]
pub(crate) struct ImageWords<'a> {
    /// The field of X's points.
    pub(crate) x: &'a [u8],
    /// The field of Y's points.
    pub(crate) y: &'a [u8],
    /// The field of the turn.
    pub(crate) turn: &'a [u8],
    /// The text of the words after `image`, if there are any.
    pub(crate) words: Option<&'a [u8]>,
}

/// The fields of a line, where it is the line of an image.
#[tactic(auto, unfolding(crate::specs::ImageLine::image_line))]
pub(crate) fn image_line(line: &[u8]) -> Option<ImageWords>
    ensures { option_map line_view result ≡ image_line line.now }
{
    let (x, y, turn, body) = four_parts(b'|', line)?;
    let (name, words) = first_word(body);
    if name != b"image".as_slice() {
        return None;
    }
    Some(ImageWords { x, y, turn, words })
}

/// The map of a number.
fn map_of(number: u16) -> Option<GridMap>
    ensures { result ≡ (if nat_lt number MAP_COUNT then Some (numbered number) else None) }
{
    let number = u8::try_from(number).ok()?;
    GridMap::from_number(number)
}

/// The image of a node that was read as a move.
fn image_of(node: Node) -> Result<ImageNode, LineError<Fault>>
    ensures { Gives (λ n. n) result (image_by node node.body) }
{
    let Body::Move { point, child } = node.body else {
        return Err(LineError::Fault(Fault::Number));
    };
    let Some(map) = map_of(point) else {
        return Err(LineError::Fault(Fault::Number));
    };
    Ok(ImageNode::Image {
        x: node.x,
        y: node.y,
        turn: node.turn,
        left: node.left,
        map,
        child,
    })
}

/// What the line of an image says.
pub(crate) fn image_said(alloc: Global, line: ImageWords) -> Result<ImageNode, LineError<Fault>>
    ensures { Gives (λ n. n) result (image_said (line_view line.entry)) }
{
    let Some(turn) = turn_of(line.turn) else {
        return Err(LineError::Fault(Fault::Form));
    };
    let outline = Outline {
        x: line.x,
        y: line.y,
        turn,
        form: Form::Move,
        words: line.words,
    };
    match read_node(alloc, outline)? {
        Some(Part::Node(node)) => image_of(node.into_node()),
        _ => unreachable!(),
    }
}
