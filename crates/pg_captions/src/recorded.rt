//! Titles and legends of recorded games.
ghost use Rattle.std.specs.Prelude.{◌≡◌, ◌++◌, IfOk, OnOk};
ghost use Rattle.pg_captions.specs.MoveLegends.{moves_by, moves_title, number_lines, order_lines};
ghost use Rattle.pg_captions.specs.MoveLegends.{stage_line};

use crate::legend::{put_board, turn_line};
use crate::look::{Legend, Look};
use crate::names::kind_title;
use crate::text::{Text, Texts};
use crate::words::{put_line, text_of};
use pg_base::{Kind, Memory};
use pg_game::{Game, Position};
use std::alloc::Global;

/// Returns the title of a recorded game: its kind, and how many moves were played.
///
/// # Errors
///
/// `Memory` if memory ran out.
pub fn moves_title(alloc: Global, kind: Kind, count: usize) -> Result<Text, Memory>
    ensures { IfOk result (λ text. text ≡ moves_title kind count) }
{
    let name = kind_title(kind);
    Ok(Text::from_string(format!(in alloc; "{name}, moves played: {count}")?))
}

/// That the game is over, or who is to move.
fn stage_line(alloc: Global, kind: Kind, p: &Position, over: bool) -> Result<Text, Memory>
    ensures { IfOk result (λ text. text ≡ stage_line kind p.now over) }
{
    if over {
        text_of(alloc, "the game is over")
    } else {
        turn_line(alloc, kind, p)
    }
}

/// Adds what the numbers of moves are.
fn put_numbers(alloc: Global, lines: &mut Vec<Text>) -> Result<(), Memory>
    ensures { OnOk result (lines.new.items ≡ lines.old.items ++ number_lines) }
{
    put_line(alloc, lines, "numbers in rings: the order of moves;")?;
    put_line(alloc, lines, "whole: odd numbers; dashed: even ones")?;
    Ok(())
}

/// Adds what the numbers of moves are, if there are moves.
fn put_order(alloc: Global, lines: &mut Vec<Text>, moves: &[u16]) -> Result<(), Memory>
    ensures { OnOk result (lines.new.items ≡ lines.old.items ++ order_lines moves.now) }
{
    let count = moves.len();
    if count > 0 {
        put_numbers(alloc, lines)?;
    }
    Ok(())
}

/// Returns what is said of a game at a position, which is over or goes on, and of the moves that
/// led there.
///
/// # Errors
///
/// `Memory` if memory ran out.
pub fn moves_legend(
    alloc: Global,
    look: Look,
    g: &Game,
    p: &Position,
    over: bool,
    moves: &[u16],
) -> Result<Texts, Memory>
    ensures { IfOk result
        (λ lines. lines ≡ moves_by look.legend look g.now p.now over moves.now) }
{
    let mut lines = Vec::new(alloc);
    match look.legend {
        Legend::Absent => {}
        Legend::OfBody => put_order(alloc, &mut lines, moves)?,
        Legend::Whole => {
            lines.push(stage_line(alloc, g.kind, p, over)?)?;
            put_board(alloc, &mut lines, look, g, p)?;
            put_order(alloc, &mut lines, moves)?;
        }
    }
    Ok(Texts::from_vec(lines))
}
