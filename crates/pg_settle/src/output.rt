//! What is printed of a result.
ghost use Rattle.std.specs.Prelude.{◌≡◌, IfOk, string_bytes};
ghost use Rattle.pg_settle.specs.JsonLines.{json_name};
ghost use Rattle.pg_settle.specs.Outputs.{class_texts, open_text, score_texts, texts_of_output};

use crate::json_line::{class_line, open_line, score_line};
use crate::order::Order;
use pg_base::{Memory, Score};
use pg_game::Game;
use pg_messages::Message;
use pg_results::class_message;
use pg_solve::Class;
use std::alloc::Global;

/// What is printed of a result.
#[derive(Debug, Drop)]
pub(crate) enum Output {
    /// A message, and perhaps a further one.
    Messages(Message, Option<Message>),
    /// A line of JSON.
    Json(String),
}

/// What is printed of a score, by how many nodes and bytes the certificate has and how many
/// positions were expanded.
pub(crate) fn score_output(
    alloc: Global,
    order: Order<'_>,
    game: &Game,
    score: Score,
    nodes: u32,
    positions: u32,
    bytes: usize,
) -> Result<Output, Memory>
    ensures { IfOk result (λ output. texts_of_output output
        ≡ score_texts (json_name order.entry.json order.entry.game.now)
        game.now score nodes positions bytes) }
{
    if order.json {
        let line = score_line(alloc, order.game, game, score, nodes, positions, bytes)?;
        return Ok(Output::Json(line));
    }
    let kind = game.kind;
    Ok(Output::Messages(
        Message::Result { kind, score },
        Some(Message::Expanded { positions, nodes }),
    ))
}

/// What is printed of the class of a switching game, by how many nodes and bytes the certificate
/// has.
pub(crate) fn class_output(
    alloc: Global,
    order: Order<'_>,
    game: &Game,
    class: Class,
    nodes: u32,
    bytes: usize,
) -> Result<Output, Memory>
    ensures { IfOk result (λ output. texts_of_output output
        ≡ class_texts (json_name order.entry.json order.entry.game.now)
        game.now class nodes bytes) }
{
    if order.json {
        let line = class_line(alloc, order.game, game, class, nodes, bytes)?;
        return Ok(Output::Json(line));
    }
    Ok(Output::Messages(class_message(class), None))
}

/// The text that is printed of a game that stays open after so many positions.
pub(crate) fn open_text(
    alloc: Global,
    order: Order<'_>,
    game: &Game,
    positions: u32,
) -> Result<String, Memory>
    ensures { IfOk result (λ text. string_bytes text
        ≡ open_text (json_name order.entry.json order.entry.game.now) game.now positions) }
{
    if order.json {
        return open_line(alloc, order.game, game, positions);
    }
    let text = String::from_str(alloc, Message::Unknown(positions).text().as_str())?;
    Ok(text)
}
