//! A game from its text.
ghost use Rattle.std.specs.Prelude.{◌≤◌, length, Ok};
ghost use Rattle.pg_family_files.specs.Prelude.{lines, reading, IsReadAs};
ghost use Rattle.pg_family_files.specs.FamilyFile.{nothing, after, ended, whole, span_game};
ghost use Rattle.pg_family_files.specs.FamilyFile.{vector_game};
ghost use Rattle.pg_family_files.specs.Views.{view, whole_view, span_entry, vector_entry};

use crate::draft::Draft;
use crate::family::Family;
use pg_base::Side;
use pg_files::{Fault, MAX_GAME_BYTES};
use pg_gf2::{VecGame, Vectors};
use pg_graph::{Ends, Graph};
use pg_span::SpanGame;
use pg_text::{FileError, Lines};
use std::alloc::Global;

/// What the lines of the text say, or the first fault with the number of its line.
fn read_lines(alloc: Global, family: Family, text: &[u8]) -> Result<Draft, FileError>
    requires { length text.now ≤ MAX_GAME_BYTES }
    ensures { IsReadAs view result (reading (after family) 1 nothing (lines text.now)) }
{
    let mut draft = Draft::new(alloc);
    let mut number = 0;
    for line in Lines::of(text) {
        number += 1;
        if let Err(error) = draft.read(alloc, family, line) {
            return Err(error.at(number));
        }
    }
    Ok(draft)
}

/// What the lines have said, with the side to move, or what the end of the file lacks.
fn finish(draft: Draft) -> Result<(Draft, Side), FileError>
    ensures { IsReadAs whole_view result (ended (Ok (view draft))) }
{
    if !draft.begun {
        return Err(FileError::at_line(Fault::Header, 0));
    }
    let Some(turn) = draft.turn else {
        return Err(FileError::at_line(Fault::Ends, 0));
    };
    Ok((draft, turn))
}

/// What a text of the family says, with the side to move, or the first fault with the number of its
/// line.
#[tactic(auto, unfolding(crate::specs::FamilyFile::whole))]
fn read_text(alloc: Global, family: Family, bytes: &[u8]) -> Result<(Draft, Side), FileError>
    ensures { IsReadAs whole_view result (whole family bytes.now) }
{
    if bytes.len() > MAX_GAME_BYTES {
        return Err(FileError::at_line(Fault::Size, 0));
    }
    match read_lines(alloc, family, bytes) {
        Err(fault) => Err(fault),
        Ok(draft) => finish(draft),
    }
}

/// The connectivity game that the text says, or the first fault with the number of its line.
///
/// Of several faulty lines the first counts, and of its faults the one with the least number. The
/// fault of the whole file, such as a missing last line, comes only where no line is faulty, with
/// line 0.
pub fn read_span(alloc: Global, bytes: &[u8]) -> Result<SpanGame, FileError>
    ensures { IsReadAs span_entry result (span_game bytes.now) }
{
    match read_text(alloc, Family::Connectivity, bytes) {
        Err(fault) => Err(fault),
        Ok((draft, turn)) => Ok(SpanGame {
            graph: Graph {
                vertices: draft.vertices,
                s: 0,
                t: 1,
                ends: Ends::from_vec(draft.ends),
            },
            x: draft.x,
            y: draft.y,
            turn,
        }),
    }
}

/// The game on vectors that the text says, or the first fault with the number of its line, as
/// `read_span` tells it.
///
/// The first sign of a vector is row 0, which is the lowest bit.
pub fn read_vectors(alloc: Global, bytes: &[u8]) -> Result<VecGame, FileError>
    ensures { IsReadAs vector_entry result (vector_game bytes.now) }
{
    match read_text(alloc, Family::Vectors, bytes) {
        Err(fault) => Err(fault),
        Ok((draft, turn)) => Ok(VecGame {
            rows: draft.rows,
            target: draft.target,
            vectors: Vectors::from_vec(draft.vectors),
            x: draft.x,
            y: draft.y,
            turn,
        }),
    }
}
