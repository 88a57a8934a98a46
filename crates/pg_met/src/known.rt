//! What is known of a position from its moves.
ghost use Rattle.std.specs.Prelude.{◌≡◌, ◌<◌, IfSome, IfNone, IfOk, false, length};
ghost use Rattle.std.specs.Prelude.{map, option_map};
ghost use Rattle.pg_met.specs.Prelude.{All, list_any, list_all, answer_for, is_answer, by_moves};
ghost use Rattle.pg_met.specs.Known.{answer_at, IsShown, HasMove, HaveReplies, IsBodyBy};

use pg_base::{Memory, Side};
use pg_cert::{Body, Replies, Reply};
use std::alloc::Global;

/// The answer to a position, and the number of its node among the nodes with that answer.
#[derive(Clone, Copy, Debug, PartialEq, Eq)]
pub struct Answered {
    /// Whether X reaches the score.
    pub answer: bool,
    /// The number of the node that shows this, from 0 among the nodes with this answer.
    pub node: u32,
}

/// The number of the node at the place, where the answer there is known to be this one.
fn node_with(answer: bool, answers: &[Option<Answered>], place: u32) -> Option<u32>
    requires { place < length answers.now }
    ensures some { IfSome result (λ n. IsShown answers.now place answer n) }
    ensures none { IfNone result (is_answer answer (answer_at answers.now place) ≡ false) }
{
    let at = answers[place as usize];
    match at {
        Some(known) => {
            if known.answer == answer {
                Some(known.node)
            } else {
                None
            }
        }
        None => None,
    }
}

/// The first move whose answer is known to be this one, with the number of its node.
pub(crate) fn find_move(
    answer: bool,
    moves: &[(u16, u32)],
    answers: &[Option<Answered>],
) -> Option<(u16, u32)>
    requires { All (λ m. m.1 < length answers.now) moves.now }
    ensures some { IfSome result (λ m. HasMove answer moves.now answers.now m.0 m.1) }
    ensures none { IfNone result
        (list_any (λ m. is_answer answer (answer_at answers.now m.1)) moves.now ≡ false) }
{
    for m in moves {
        if let Some(node) = node_with(answer, answers, m.1) {
            return Some((m.0, node));
        }
    }
    None
}

/// The replies, where the answer of every move is known to be this one.
pub(crate) fn find_replies(
    alloc: Global,
    answer: bool,
    moves: &[(u16, u32)],
    answers: &[Option<Answered>],
) -> Result<Option<Vec<Reply>>, Memory>
    requires { All (λ m. m.1 < length answers.now) moves.now }
    ensures some { IfOk result
        (λ r. IfSome r (λ replies. HaveReplies answer moves.now answers.now replies.items)) }
    ensures none { IfOk result (λ r. IfNone r
        (list_all (λ m. is_answer answer (answer_at answers.now m.1)) moves.now ≡ false)) }
{
    let mut replies = Vec::new(alloc);
    for m in moves {
        match node_with(answer, answers, m.1) {
            Some(node) => replies.push(Reply {
                point: m.0,
                child: node,
            })?,
            None => return Ok(None),
        }
    }
    Ok(Some(replies))
}

/// Returns what is known from the moves of the side to move, with the body that shows it: the
/// answer that the side wants if a move has it, the other one if all moves have that, else none.
/// Moves are points with the places of the positions after them, and `answers` has the answer at
/// each place.
///
/// # Errors
///
/// `Memory` if memory runs out.
pub fn known_by_moves(
    alloc: Global,
    turn: Side,
    moves: &[(u16, u32)],
    answers: &[Option<Answered>],
) -> Result<Option<(bool, Body)>, Memory>
    requires { All (λ m. m.1 < length answers.now) moves.now }
    ensures known { IfOk result (λ r. option_map (λ k. k.0) r
        ≡ by_moves turn (map (λ m. answer_at answers.now m.1) moves.now)) }
    ensures body { IfOk result (λ r. IfSome r (λ k. IsBodyBy turn moves.now answers.now k.0 k.1)) }
{
    let wants = wants(turn);
    if let Some((point, child)) = find_move(wants, moves, answers) {
        return Ok(Some((wants, Body::Move { point, child })));
    }
    match find_replies(alloc, !wants, moves, answers)? {
        Some(replies) => Ok(Some((!wants, Body::All(Replies::from_vec(replies))))),
        None => Ok(None),
    }
}

/// The answer that the side wants.
fn wants(side: Side) -> bool
    ensures { result ≡ answer_for side }
{
    match side {
        Side::X => true,
        Side::Y => false,
    }
}
