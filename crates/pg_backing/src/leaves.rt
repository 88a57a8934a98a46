//! Positions that are decided at once.
ghost use Rattle.std.specs.Prelude.{◌≢◌};
ghost use Rattle.pg_base.specs.declared.kind.Kind.TheVariants.{Switching};
ghost use Rattle.pg_game.specs.Decided.{IsQuestion};
ghost use Rattle.pg_game.specs.Game.{IsPosition};

use crate::board::is_position;
use crate::span::Span;
use pg_base::{Goal, Kind, Memory, Score, Side};
use pg_board::Board;
use pg_cert::Body;
use pg_game::{Game, Position};
use pg_leaf::leaf;
use pg_match::PairCache;
use std::alloc::Global;

/// Returns the leaf of a position: the answer to the question, and the body that shows it.
fn leaf_at(
    alloc: Global,
    game: &Game,
    question: Score,
    position: &Position,
) -> Result<Option<(bool, Body)>, Memory>
    requires lines { game.now.kind ≢ Switching }
    requires question { IsQuestion game.now.kind question }
    requires position { IsPosition game.now position.now }
{
    let mut cache = PairCache::new(alloc, 1)?;
    let mut board = Board::open(alloc, game, position)?;
    leaf(alloc, game, question, position, &mut board, &mut cache)
}

/// Returns the leaf of a position, if the question is one for the game and a criterion decides it.
fn ask(
    alloc: Global,
    game: &Game,
    question: Score,
    position: &Position,
) -> Result<Option<(bool, Body)>, Memory> {
    if !is_position(game, position) {
        return Ok(None);
    }
    match (game.kind, question) {
        (Kind::Switching, _) => Ok(None),
        (_, Score::XWins) => leaf_at(alloc, game, Score::XWins, position),
        (Kind::MakerMaker, Score::Draw) => leaf_at(alloc, game, Score::Draw, position),
        _ => Ok(None),
    }
}

/// Returns what an answer to a question says of the value.
fn said_by(kind: Kind, question: Score, answer: bool) -> Span {
    match (question, answer) {
        (Score::XWins, true) => Span::of(Score::XWins),
        (Score::XWins, false) => match kind {
            Kind::MakerMaker => Span::reached(Side::Y, Goal::Draw),
            _ => Span::of(Score::YWins),
        },
        (_, true) => Span::reached(Side::X, Goal::Draw),
        (_, false) => Span::of(Score::YWins),
    }
}

/// Returns what the leaf for a question says of the value.
fn asked(alloc: Global, game: &Game, question: Score, position: &Position) -> Result<Span, Memory> {
    match ask(alloc, game, question, position)? {
        Some((answer, _body)) => Ok(said_by(game.kind, question, answer)),
        None => Ok(Span::open()),
    }
}

/// Returns what the criteria say of the value of a position.
pub fn decided(alloc: Global, game: &Game, position: &Position) -> Result<Span, Memory> {
    let first = asked(alloc, game, Score::XWins, position)?;
    let second = asked(alloc, game, Score::Draw, position)?;
    Ok(first.meet(second))
}

/// Returns the body of the leaf for a question, if its answer shows that the side reaches the goal.
fn body_by(
    alloc: Global,
    game: &Game,
    question: Score,
    position: &Position,
    side: Side,
    goal: Goal,
) -> Result<Option<Body>, Memory> {
    let Some((answer, body)) = ask(alloc, game, question, position)? else {
        return Ok(None);
    };
    if said_by(game.kind, question, answer).shows(side, goal) {
        Ok(Some(body))
    } else {
        Ok(None)
    }
}

/// Returns the body of a leaf that shows that the side reaches the goal, if there is one.
pub fn body_for(
    alloc: Global,
    game: &Game,
    position: &Position,
    side: Side,
    goal: Goal,
) -> Result<Option<Body>, Memory> {
    if let Some(body) = body_by(alloc, game, Score::XWins, position, side, goal)? {
        return Ok(Some(body));
    }
    body_by(alloc, game, Score::Draw, position, side, goal)
}
