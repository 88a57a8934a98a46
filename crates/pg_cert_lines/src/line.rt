//! What single lines say.

ghost use Rattle.std.specs.Prelude.{◌≡◌, option_map, if◌then◌else◌, Ok, Err};
ghost use Rattle.pg_cert_lines.specs.Prelude.{Gives, words_of};
ghost use Rattle.pg_cert_lines.specs.Form.{has_bar, are_none, has_one_slash};
ghost use Rattle.pg_cert_lines.specs.NodeLine.{edges_of, node_line};
ghost use Rattle.pg_cert_lines.specs.Outline.{formed_body, read_node, node_part};
ghost use Rattle.pg_cert_lines.specs.ClaimLine.{version_of, head_of, count_of};

use crate::fault::Fault;
use crate::form::{Form, Outline, are_none, are_odd, has_one_slash, only_word, outline_of, two};
use crate::head::Head;
use crate::values::{Edges, child, pairs, point, points, replies, set_apart, two_sets, words_in};
use pg_base::{Goal, Pairs, PointSet, Points, Side};
use pg_cert::{Body, Node, NodePart, Part, Replies, Version};
use pg_text::{LineError, Words, four_parts, has_sign, two_parts};
use std::alloc::Global;

/// Whether a bar stands in the line.
pub fn has_bar(line: &[u8]) -> bool
    ensures { result ≡ has_bar line.now }
{
    has_sign(b'|', line)
}

/// The version that a first line names.
pub fn version_of(line: &[u8]) -> Option<Version>
    ensures { result ≡ version_of line.now }
{
    if line == b"posgame-cert 1".as_slice() {
        Some(Version::One)
    } else if line == b"posgame-cert 2".as_slice() {
        Some(Version::Two)
    } else {
        None
    }
}

/// What a claim line says.
#[tactic(auto, unfolding(crate::specs::ClaimLine::head_of))]
pub fn head_of(line: &[u8]) -> Option<Head>
    ensures { result ≡ head_of line.now }
{
    let (name, turn, side, goal) = four_parts(b' ', line)?;
    if name != b"claim".as_slice() {
        return None;
    }
    let turn = Side::from_word(turn)?;
    let side = Side::from_word(side)?;
    let goal = Goal::from_word(goal)?;
    Some(Head { turn, side, goal })
}

/// The word of a `nodes` line in which its number stands.
#[tactic(auto, unfolding(crate::specs::ClaimLine::count_of))]
pub fn count_of(line: &[u8]) -> Option<&[u8]>
    ensures { option_map (λ w. w.now) result ≡ count_of line.now }
{
    let (name, count) = two_parts(b' ', line)?;
    if name != b"nodes".as_slice() {
        return None;
    }
    Some(count)
}

/// The body that has no words.
fn bare(words: Words, body: Body) -> Result<Body, LineError<Fault>>
    ensures { Gives (λ b. b) result (if are_none words.entry then Ok body else Err Fault.Form) }
{
    if are_none(words) {
        Ok(body)
    } else {
        Err(LineError::Fault(Fault::Form))
    }
}

/// The body of one move.
fn move_of(words: Words) -> Result<Body, LineError<Fault>>
    ensures { Gives (λ b. b) result (formed_body Form.Move words.entry) }
{
    let Some((first, second)) = two(words) else {
        return Err(LineError::Fault(Fault::Form));
    };
    let point = point(first)?;
    let child = child(second)?;
    Ok(Body::Move { point, child })
}

/// The two sets of edges of trees or cuts.
fn edges_of(alloc: Global, words: Words) -> Result<Edges, LineError<Fault>>
    ensures { Gives (λ e. e) result
        (if has_one_slash words.entry then edges_of words.entry else Err Fault.Form) }
{
    if !has_one_slash(words.again()) {
        return Err(LineError::Fault(Fault::Form));
    }
    two_sets(alloc, words)
}

/// The points of a threat line, without spare room.
fn threat_of(alloc: Global, words: Words) -> Result<Body, LineError<Fault>>
    ensures { Gives (λ b. b) result (formed_body Form.Threat words.entry) }
{
    if !are_odd(words.again()) {
        return Err(LineError::Fault(Fault::Form));
    }
    let mut points = points(alloc, words)?;
    points.shrink_to_fit();
    Ok(Body::Threat(Points::from_vec(points)))
}

/// The body that names one other node.
fn weaker_of(words: Words) -> Result<Body, LineError<Fault>>
    ensures { Gives (λ b. b) result (formed_body Form.Weaker words.entry) }
{
    let Some(word) = only_word(words) else {
        return Err(LineError::Fault(Fault::Form));
    };
    let child = child(word)?;
    Ok(Body::Weaker { child })
}

/// The body that the words of the text say, without spare room. Their form comes before their
/// numbers.
fn body_of(alloc: Global, form: Form, text: Option<&[u8]>) -> Result<Body, LineError<Fault>>
    ensures { Gives (λ b. b) result
        (formed_body form (words_of (option_map (λ w. w.now) text.entry))) }
{
    match form {
        Form::Over => bare(words_in(text), Body::Over),
        Form::Move => move_of(words_in(text)),
        Form::All => {
            let mut replies = replies(alloc, text)?;
            replies.shrink_to_fit();
            Ok(Body::All(Replies::from_vec(replies)))
        }
        Form::Pairs => {
            let mut pairs = pairs(alloc, text)?;
            pairs.shrink_to_fit();
            Ok(Body::Pairs(Pairs::from_vec(pairs)))
        }
        Form::Potential => bare(words_in(text), Body::Potential),
        Form::Trees => {
            let sets = edges_of(alloc, words_in(text))?;
            Ok(Body::Trees {
                with_e: sets.with_e,
                first: sets.first,
                second: sets.second,
            })
        }
        Form::Cuts => {
            let sets = edges_of(alloc, words_in(text))?;
            Ok(Body::Cuts {
                with_e: sets.with_e,
                first: sets.first,
                second: sets.second,
            })
        }
        Form::Threat => threat_of(alloc, words_in(text)),
        Form::Weaker => weaker_of(words_in(text)),
    }
}

/// The node of a line's outline: the body first, and then each point of its fields straight into a
/// set.
pub fn read_node(alloc: Global, outline: Outline) -> Result<Option<Part>, LineError<Fault>>
    ensures { Gives (λ p. p) result (node_part (read_node (record {
      x = outline.entry.x.now;
      y = outline.entry.y.now;
      turn = outline.entry.turn;
      form = outline.entry.form;
      words = words_of (option_map (λ w. w.now) outline.entry.words);
    }))) }
{
    let body = body_of(alloc, outline.form, outline.words)?;
    let x = set_apart(&PointSet::empty(), outline.x)?;
    let y = set_apart(&x, outline.y)?;
    let node = Node {
        x,
        y,
        turn: outline.turn.side,
        left: outline.turn.left,
        body,
    };
    Ok(Some(Part::Node(NodePart::new(alloc, node)?)))
}

/// The node of a line in the version, as a part.
pub fn node_line(
    alloc: Global,
    version: Version,
    line: &[u8],
) -> Result<Option<Part>, LineError<Fault>>
    ensures { Gives (λ p. p) result (node_part (node_line version line.now)) }
{
    match outline_of(version, line) {
        Some(outline) => read_node(alloc, outline),
        None if has_bar(line) => Err(LineError::Fault(Fault::Form)),
        None => Err(LineError::Fault(Fault::Place)),
    }
}
