//! The lines of the moves that were tried.
ghost use Rattle.std.specs.Prelude.{◌≡◌, ◌++◌, IfOk, string_bytes};
ghost use Rattle.pg_moves.specs.Best.{list_of};
ghost use Rattle.pg_moves.specs.Lines.{best_line, moves_lines, point_words, trial_line};
ghost use Rattle.pg_moves.specs.Prelude.{flat_map};

use crate::trial::{Trial, Worth};
use pg_base::{Kind, Memory};
use pg_settle::score_word;
use std::alloc::{AllocError, Global};

/// Returns the line of a move.
fn trial_line(alloc: Global, kind: Kind, trial: &Trial) -> Result<String, AllocError>
    ensures { IfOk result (λ line. string_bytes line ≡ trial_line kind trial.now) }
{
    let point = trial.point;
    match trial.worth {
        Worth::Known {
            score,
            nodes,
            expanded,
        } => {
            let word = score_word(kind, score);
            format!(in alloc; "{point} {word} nodes {nodes} expanded {expanded}\n")
        }
        Worth::Unknown { expanded } => {
            format!(in alloc; "{point} unknown after {expanded} positions\n")
        }
    }
}

/// Returns the points, each behind a space.
fn points_text(alloc: Global, points: &[u16]) -> Result<String, Memory>
    ensures { IfOk result (λ text. string_bytes text ≡ flat_map point_words points.now) }
{
    let mut text = String::new(alloc);
    for point in points {
        let word = format!(in alloc; " {point}")?;
        text.push_str(word.as_str())?;
    }
    Ok(text)
}

/// Returns the line of the best moves.
fn best_line(alloc: Global, best: &Option<Vec<u16>>) -> Result<String, Memory>
    ensures { IfOk result (λ line. string_bytes line ≡ best_line (list_of best.now)) }
{
    let line = match best {
        Some(points) => {
            let text = points_text(alloc, points)?;
            format!(in alloc; "best{text}\n")?
        }
        None => String::from_str(alloc, "best unknown\n")?,
    };
    Ok(line)
}

/// Returns the lines of the moves.
fn trial_lines(alloc: Global, kind: Kind, trials: &[Trial]) -> Result<String, Memory>
    ensures { IfOk result (λ text. string_bytes text ≡ flat_map (trial_line kind) trials.now) }
{
    let mut text = String::new(alloc);
    for trial in trials {
        let line = trial_line(alloc, kind, trial)?;
        text.push_str(line.as_str())?;
    }
    Ok(text)
}

/// Returns all lines: that of each move, and then that of the best ones.
pub(crate) fn moves_lines(
    alloc: Global,
    kind: Kind,
    trials: &[Trial],
    best: &Option<Vec<u16>>,
) -> Result<String, Memory>
    ensures { IfOk result
        (λ text. string_bytes text ≡ moves_lines kind trials.now (list_of best.now)) }
{
    let mut text = trial_lines(alloc, kind, trials)?;
    let last = best_line(alloc, best)?;
    text.push_str(last.as_str())?;
    Ok(text)
}
