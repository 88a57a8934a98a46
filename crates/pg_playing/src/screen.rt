//! What is printed at a table.
ghost use Rattle.std.specs.Prelude.{◌≡◌, ◌++◌, IfOk, OnOk, string_bytes};
ghost use Rattle.pg_playing.specs.Prelude.{standing};
ghost use Rattle.pg_playing.specs.Screens.{answer_text, ending_text, last_of, shown_of};
ghost use Rattle.pg_playing.specs.Screens.{shown_text};

use crate::note::{Note, put_note};
use pg_base::{Memory, Score};
use pg_characters::{Look, Shown};
use pg_game::{Game, Position};
use pg_record::Session;
use pg_table::{put_board, put_goals, put_result, put_turn};
use std::alloc::{AllocError, Global};

/// The point that was claimed last of those that weren't taken back.
fn last_of(session: &Session<'_>) -> Option<u16>
    ensures { result ≡ last_of (standing session.now.events) }
{
    let count = session.standing();
    if count == 0 {
        return None;
    }
    Some(session.move_at(count - 1))
}

/// Returns what is shown of a session.
pub fn shown_of(session: &Session<'_>, look: Look) -> Shown
    ensures { result ≡ shown_of look session.now.game session.now.events }
{
    Shown {
        position: session.position(),
        last: last_of(session),
        look,
    }
}

/// Adds who has won, or whose turn it is.
fn put_ending(
    out: &mut String,
    position: &Position,
    ending: Option<Score>,
) -> Result<(), AllocError>
    ensures { OnOk result (string_bytes out.new
        ≡ string_bytes out.old ++ ending_text position.now ending) }
{
    match ending {
        Some(score) => put_result(out, score),
        None => put_turn(out, position),
    }
}

/// Returns the text that shows a position: what the sides want, the board, and whose turn it is or
/// who has won. An error means that memory ran out.
#[tactic(auto, unfolding(crate::specs::Screens::shown_text))]
pub fn shown_text(
    alloc: Global,
    game: &Game,
    shown: &Shown,
    ending: Option<Score>,
) -> Result<String, Memory>
    ensures { IfOk result (λ text. string_bytes text ≡ shown_text game.now shown.now ending) }
{
    let mut out = String::new(alloc);
    out.push_str("\n")?;
    put_goals(&mut out, game)?;
    put_board(&mut out, game, shown)?;
    put_ending(&mut out, &shown.position, ending)?;
    Ok(out)
}

/// Returns the text that answers a line that changes nothing, and says whose turn it is. An error
/// means that memory ran out.
pub(crate) fn answer(
    alloc: Global,
    game: &Game,
    position: &Position,
    note: Note,
) -> Result<String, Memory>
    ensures { IfOk result (λ text. string_bytes text
        ≡ answer_text game.now position.now note) }
{
    let mut out = String::new(alloc);
    put_note(&mut out, game, position, note)?;
    put_turn(&mut out, position)?;
    Ok(out)
}
