//! Answers to lines that change nothing.
ghost use Rattle.std.specs.Prelude.{◌≡◌, ◌++◌, OnOk, string_bytes};
ghost use Rattle.pg_playing.specs.Notes.{note_text, why_text};

use pg_game::{Game, Position};
use pg_messages::ReplyFault;
use pg_table::{put_help, put_lines};
use std::alloc::AllocError;

/// An answer to a line that changes nothing.
#[derive(Clone, Copy, Debug, PartialEq, Eq)]
pub enum Note {
    /// What the sides want, and the commands.
    Help,
    /// The open lines; those that have this point, if one was named.
    Lines(Option<u16>),
    /// Why the line is refused.
    Refused(ReplyFault),
}

/// Why a line is refused, and what may be typed.
fn why_of(fault: ReplyFault) -> &'static str
    ensures { result.now ≡ why_text fault }
{
    match fault {
        ReplyFault::NoNumber => "Type a point such as b3 or 7, undo, lines, ? or quit.\n",
        ReplyFault::NoPoint => "There is no such point: type one like b3 or 7, or ? for help.\n",
        ReplyFault::Over => "The game is over.\n",
        ReplyFault::Taken => "That point is taken: type a free one, undo, lines, ? or quit.\n",
        ReplyFault::NothingToTakeBack =>
            "Nothing can be taken back: type a point, or ? for help.\n",
    }
}

/// Adds an answer. An error means that memory ran out.
pub fn put_note(
    out: &mut String,
    game: &Game,
    position: &Position,
    note: Note,
) -> Result<(), AllocError>
    ensures { OnOk result (string_bytes out.new
        ≡ string_bytes out.old ++ note_text game.now position.now note) }
{
    match note {
        Note::Help => put_help(out, game),
        Note::Lines(through) => put_lines(out, game, position, through),
        Note::Refused(fault) => out.push_str(why_of(fault)),
    }
}
