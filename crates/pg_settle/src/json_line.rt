//! Lines of JSON.
ghost use Rattle.std.specs.Prelude.{◌≡◌, IfOk, false, string_bytes};
ghost use Rattle.pg_settle.specs.Prelude.{class_text, has_float, outcome_word, view};
ghost use Rattle.pg_settle.specs.JsonLines.{class_data, class_word, json_line, open_data};
ghost use Rattle.pg_settle.specs.JsonLines.{value_data};

use crate::version::VERSION;
use pg_base::{Kind, Memory, Score};
use pg_game::Game;
use pg_solve::Class;
use serde_json::{Value, json};
use std::alloc::{AllocError, Global};

/// Returns the word for a score of a game of the kind, as the message of a result has it.
pub fn score_word(kind: Kind, score: Score) -> &'static str
    ensures { result.now ≡ outcome_word kind score }
{
    match (kind, score) {
        (Kind::MakerBreaker, Score::XWins) => "maker",
        (Kind::MakerBreaker, _) => "breaker",
        (Kind::MakerMaker, Score::XWins) => "x",
        (Kind::MakerMaker, Score::YWins) => "y",
        (Kind::MakerMaker, Score::Draw) => "draw",
        (Kind::AvoiderEnforcer, Score::XWins) => "avoider",
        (Kind::AvoiderEnforcer, _) => "enforcer",
        (Kind::Switching, Score::XWins) => "short",
        (Kind::Switching, _) => "cut",
    }
}

/// The class of a switching game in a word.
fn class_word(class: Class) -> &'static str
    ensures { result.now ≡ class_word class }
{
    match class {
        Class::Short => "short",
        Class::Cut => "cut",
        Class::First => "first-mover",
    }
}

/// Returns a value without a float as one line of compact JSON (RFC 8259) with its line feed.
///
/// # Errors
///
/// `Memory` if an allocation failed.
pub fn line_of(alloc: Global, value: &Value) -> Result<String, Memory>
    ensures { IfOk result (λ line. has_float (view value.now) ≡ false
        → string_bytes line ≡ json_line (view value.now)) }
{
    let mut line = value.to_string(alloc)?;
    line.push('\n')?;
    Ok(line)
}

/// A score of a game on lines.
fn score_value(
    alloc: Global,
    name: &str,
    game: &Game,
    score: Score,
    nodes: u32,
    expanded: u32,
    bytes: usize,
) -> Result<Value, AllocError>
    ensures { IfOk result
        (λ v. view v ≡ value_data name.now game.now score nodes expanded bytes) }
{
    json!(in alloc; {
        "answer": "value", "bytes": bytes, "expanded": expanded, "game": name,
        "kind": game.kind.word(), "nodes": nodes, "result": score_word(game.kind, score),
        "turn": game.turn.word(), "version": VERSION
    })
}

/// A class of a switching game.
fn class_value(
    alloc: Global,
    name: &str,
    game: &Game,
    class: Class,
    nodes: u32,
    bytes: usize,
) -> Result<Value, AllocError>
    ensures { IfOk result (λ v. view v ≡ class_data name.now game.now class nodes bytes) }
{
    json!(in alloc; {
        "answer": "class", "bytes": bytes, "game": name, "kind": game.kind.word(), "nodes": nodes,
        "result": class_word(class), "turn": game.turn.word(), "version": VERSION
    })
}

/// A game that stays open.
fn open_value(alloc: Global, name: &str, game: &Game, expanded: u32) -> Result<Value, AllocError>
    ensures { IfOk result (λ v. view v ≡ open_data name.now game.now expanded) }
{
    json!(in alloc; {
        "answer": "none", "expanded": expanded, "game": name, "kind": game.kind.word(),
        "result": "unknown", "turn": game.turn.word(), "version": VERSION
    })
}

/// The line that says the score of the game in the file of this name, how many positions were
/// expanded, and how many nodes and bytes the certificate has.
pub(crate) fn score_line(
    alloc: Global,
    name: &str,
    game: &Game,
    score: Score,
    nodes: u32,
    expanded: u32,
    bytes: usize,
) -> Result<String, Memory>
    ensures { IfOk result (λ line. string_bytes line
        ≡ json_line (value_data name.now game.now score nodes expanded bytes)) }
{
    let value = score_value(alloc, name, game, score, nodes, expanded, bytes)?;
    line_of(alloc, &value)
}

/// The line that says the class of the switching game in the file of this name, and how many nodes
/// and bytes the certificate has.
pub(crate) fn class_line(
    alloc: Global,
    name: &str,
    game: &Game,
    class: Class,
    nodes: u32,
    bytes: usize,
) -> Result<String, Memory>
    ensures { IfOk result (λ line. string_bytes line
        ≡ json_line (class_data name.now game.now class nodes bytes)) }
{
    let value = class_value(alloc, name, game, class, nodes, bytes)?;
    line_of(alloc, &value)
}

/// The line that says that the game in the file of this name stays open after so many positions.
pub(crate) fn open_line(
    alloc: Global,
    name: &str,
    game: &Game,
    expanded: u32,
) -> Result<String, Memory>
    ensures { IfOk result (λ line. string_bytes line
        ≡ json_line (open_data name.now game.now expanded)) }
{
    let value = open_value(alloc, name, game, expanded)?;
    line_of(alloc, &value)
}
