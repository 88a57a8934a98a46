//! The moves as a line of JSON.
ghost use Rattle.std.specs.Prelude.{◌≡◌, IfOk, map, string_bytes};
ghost use Rattle.pg_moves.specs.Best.{list_of};
ghost use Rattle.pg_moves.specs.JsonLines.{best_data, moves_data, number_data, trial_data};
ghost use Rattle.pg_moves.specs.JsonLines.{trials_data};
ghost use Rattle.pg_moves.specs.Prelude.{array, items_of, json_line, view};

use crate::trial::{Trial, Worth};
use pg_base::{Kind, Memory, Side};
use pg_settle::{VERSION, line_of, score_word};
use serde_json::{Value, json};
use std::alloc::{AllocError, Global};

/// Returns a move: its point, and what is known of the position after it.
fn trial_value(alloc: Global, kind: Kind, trial: &Trial) -> Result<Value, AllocError>
    ensures { IfOk result (λ v. view v ≡ trial_data kind trial.now) }
{
    match trial.worth {
        Worth::Known {
            score,
            nodes,
            expanded,
        } => json!(in alloc; {
            "expanded": expanded, "nodes": nodes, "point": trial.point,
            "result": score_word(kind, score)
        }),
        Worth::Unknown { expanded } => json!(in alloc; {
            "expanded": expanded, "point": trial.point, "result": "unknown"
        }),
    }
}

/// Returns the moves in order.
fn trials_value(alloc: Global, kind: Kind, trials: &[Trial]) -> Result<Value, AllocError>
    ensures { IfOk result (λ v. view v ≡ trials_data kind trials.now) }
{
    let mut values = Vec::new(alloc);
    for trial in trials {
        values.push(trial_value(alloc, kind, trial)?)?;
    }
    Ok(Value::Array(values))
}

/// Returns points in order.
fn points_value(alloc: Global, points: &[u16]) -> Result<Value, AllocError>
    ensures { IfOk result (λ v. view v ≡ array (items_of (map number_data points.now))) }
{
    let mut values = Vec::new(alloc);
    for point in points {
        values.push(Value::from(*point))?;
    }
    Ok(Value::Array(values))
}

/// Returns the best moves, or null where they aren't known.
fn best_value(alloc: Global, best: &Option<Vec<u16>>) -> Result<Value, AllocError>
    ensures { IfOk result (λ v. view v ≡ best_data (list_of best.now)) }
{
    match best {
        Some(points) => points_value(alloc, points),
        None => Ok(Value::Null),
    }
}

/// Returns the moves of the game in the file of this name, of this kind and with this side to move.
fn moves_value(
    alloc: Global,
    name: &str,
    kind: Kind,
    turn: Side,
    trials: &[Trial],
    best: &Option<Vec<u16>>,
) -> Result<Value, AllocError>
    ensures { IfOk result
        (λ v. view v ≡ moves_data name.now kind turn trials.now (list_of best.now)) }
{
    let moves = trials_value(alloc, kind, trials)?;
    let best = best_value(alloc, best)?;
    json!(in alloc; {
        "answer": "moves", "best": best, "game": name, "kind": kind.word(), "moves": moves,
        "turn": turn.word(), "version": VERSION
    })
}

/// Returns the line of the moves of the game in the file of this name.
pub(crate) fn moves_line(
    alloc: Global,
    name: &str,
    kind: Kind,
    turn: Side,
    trials: &[Trial],
    best: &Option<Vec<u16>>,
) -> Result<String, Memory>
    ensures { IfOk result (λ line. string_bytes line
        ≡ json_line (moves_data name.now kind turn trials.now (list_of best.now))) }
{
    let value = moves_value(alloc, name, kind, turn, trials, best)?;
    line_of(alloc, &value)
}
