//! A game from its text.
ghost use Rattle.std.specs.Prelude.{◌≡◌, ◌≤◌, length, Ok};
ghost use Rattle.pg_files.specs.Prelude.{lines, reading};
ghost use Rattle.pg_files.specs.GameFile.{nothing, after, ended, field_of, game, IsSaid};
ghost use Rattle.pg_files.specs.Views.{IsReadAs, view, entry};

use crate::draft::Draft;
use crate::fault::Fault;
use crate::limits::MAX_GAME_BYTES;
use pg_base::{Kind, Lines as LineList};
use pg_game::{Field, Game, LineField};
use pg_graph::{Ends, Graph};
use pg_text::{FileError, Lines};
use std::alloc::Global;

/// What the lines of the text say, or the first fault with the number of its line.
fn read_lines(alloc: Global, text: &[u8]) -> Result<Draft, FileError>
    requires { length text.now ≤ MAX_GAME_BYTES }
    ensures { IsReadAs view result (reading after 1 nothing (lines text.now)) }
{
    let mut draft = Draft::new(alloc);
    let mut number = 0;
    for line in Lines::of(text) {
        number += 1;
        if let Err(error) = draft.read(alloc, line) {
            return Err(error.at(number));
        }
    }
    Ok(draft)
}

/// The game that the lines have said, or what the end of the file lacks.
fn finish(draft: Draft) -> Result<Game, FileError>
    requires { IsSaid (view draft) }
    ensures { IsReadAs entry result (ended (Ok (view draft))) }
{
    if !draft.begun {
        return Err(FileError::at_line(Fault::Header, 0));
    }
    let Some(kind) = draft.kind else {
        return Err(FileError::at_line(Fault::Ends, 0));
    };
    let Some(turn) = draft.turn else {
        return Err(FileError::at_line(Fault::Ends, 0));
    };
    let (x, y, bias) = (draft.x, draft.y, draft.bias);
    let field = field_of(kind, draft);
    Ok(Game {
        kind,
        field,
        x,
        y,
        turn,
        bias,
    })
}

/// What a game of the kind is played on.
fn field_of(kind: Kind, draft: Draft) -> Field
    ensures { result ≡ field_of kind (view draft) }
{
    match kind {
        Kind::Switching => Field::Graph(Graph {
            vertices: draft.vertices,
            s: draft.s,
            t: draft.t,
            ends: Ends::from_vec(draft.ends),
        }),
        _ => Field::Lines(LineField {
            points: draft.points,
            grid: draft.grid,
            lines: LineList::from_vec(draft.lines),
        }),
    }
}

/// The game that the text says, or the first fault with the number of its line.
///
/// A file with several faults has that of its first faulty line, and of that line's the one with
/// the least number. The fault of the whole file, such as a missing last line, comes only where no
/// line is faulty, with line 0. The text is read once, and no copy of it is made.
#[tactic(auto, unfolding(crate::specs::GameFile::game))]
pub fn read_game(alloc: Global, bytes: &[u8]) -> Result<Game, FileError>
    ensures { IsReadAs entry result (game bytes.now) }
{
    if bytes.len() > MAX_GAME_BYTES {
        return Err(FileError::at_line(Fault::Size, 0));
    }
    match read_lines(alloc, bytes) {
        Err(fault) => Err(fault),
        Ok(draft) => finish(draft),
    }
}
