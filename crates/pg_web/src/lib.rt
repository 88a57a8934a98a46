//! The programs as one call on bytes, for callers in other languages.
#![tactic(auto)]

ghost use Rattle.pg_answering.specs.Answers.{Responds};
ghost use Rattle.pg_request.specs.Request.{request_of};

use pg_answering::respond;
use std::alloc::Global;

/// Answers a request, as `respond` of `pg_answering` does: bytes that are cut into parts of these
/// lengths, of which the first `count` are words, the first of them the name of a program. Returns
/// 0 if memory runs out, 1 if the first word names no program, and else the length of the answer,
/// which stands at the beginning of the room if it fits.
#[unsafe(no_mangle)]
pub extern "C" fn pg_web(
    alloc: Global,
    count: usize,
    lengths: &[usize],
    bytes: &[u8],
    room: &mut [u8],
) -> usize
    ensures { Responds (request_of count lengths.now bytes.now) room.old room.new result }
{
    respond(alloc, count, lengths, bytes, room)
}
