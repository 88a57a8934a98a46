//! Answers that are placed where their caller has room for them.
ghost use Rattle.std.specs.Prelude.{◌≡◌, length, map, string_bytes};
ghost use Rattle.pg_request.specs.Request.{request_of, shown};
ghost use Rattle.pg_answering.specs.Answers.{Responds, placed};
ghost use Rattle.pg_answering.specs.Programs.{program_of};

use crate::answering::answer_to;
use crate::program::{Program, program_named};
use pg_request::Request;
use std::alloc::Global;

/// What is returned if memory runs out.
pub const OUT_OF_MEMORY: usize = 0;

/// What is returned if the request names no program.
pub const NO_PROGRAM: usize = 1;

/// Returns the program that the first word names.
fn program_of(words: &[String]) -> Option<Program>
    ensures { result ≡ program_of (map string_bytes words.now) }
{
    match words {
        [] => None,
        [name, ..] => program_named(name.as_bytes()),
    }
}

/// Copies the answer to the beginning of the room, if it fits, and returns its length.
fn place(answer: &[u8], room: &mut [u8]) -> usize
    ensures count { result ≡ length answer.now }
    ensures placed { room.new ≡ placed answer.now room.old }
{
    let count = answer.len();
    if count <= room.len() {
        room[..count].copy_from_slice(answer);
    }
    count
}

/// Answers a request: bytes that are cut into parts of these lengths, of which the first `count`
/// are words, the first of them the name of a program. The answer is copied to the beginning of the
/// room if it fits, and its length is returned; if not, the room stays, and a caller can come again
/// with more. An answer has at least 17 bytes.
///
/// `OUT_OF_MEMORY` is returned if memory runs out beside the run, and `NO_PROGRAM` if the first
/// word names no program. The room stays then.
pub fn respond(
    alloc: Global,
    count: usize,
    lengths: &[usize],
    bytes: &[u8],
    room: &mut [u8],
) -> usize
    ensures { Responds (request_of count lengths.now bytes.now) room.old room.new result }
{
    let Ok(request) = Request::read(alloc, count, lengths, bytes) else {
        return OUT_OF_MEMORY;
    };
    let Some(program) = program_of(&request.words) else {
        return NO_PROGRAM;
    };
    match answer_to(alloc, program, request) {
        Ok(answer) => place(&answer, room),
        Err(_) => OUT_OF_MEMORY,
    }
}
