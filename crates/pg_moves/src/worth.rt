//! What is known of a game at its own position.
ghost use Rattle.std.specs.Prelude.{◌≡◌, ◌≢◌, IfOk};
ghost use Rattle.pg_moves.specs.Prelude.{Budget, Game, IsBudget, Outcome, Switching, won_by};
ghost use Rattle.pg_moves.specs.Prelude.{winner};
ghost use Rattle.pg_moves.specs.Trials.{IsWorth, IsWorthOnGraph, IsWorthOnLines};

use crate::trial::Worth;
use pg_base::{Kind, Memory, Score, Side};
use pg_game::Game;
use pg_results::node_count;
use pg_settle::{Budget, Finder, Finding, answer, classified, shown_scores_are_values};
use pg_solve::Class;
use std::alloc::Global;

/// Returns the score of a game of the class with this side to move.
fn class_score(class: Class, turn: Side) -> Score
    ensures { result ≡ won_by (winner class turn) }
{
    match (class, turn) {
        (Class::Short, _) | (Class::First, Side::X) => Score::XWins,
        (Class::Cut, _) | (Class::First, Side::Y) => Score::YWins,
    }
}

/// Decides a switching game by two forests.
fn worth_on_graph(alloc: Global, game: &Game) -> Result<Worth, Memory>
    requires { game.now.kind ≡ Switching }
    ensures { IfOk result (IsWorthOnGraph game.now) }
{
    let found = classified(alloc, game)?;
    let score = class_score(found.0, game.turn);
    let nodes = node_count(&found.1);
    Ok(Worth::Known {
        score,
        nodes,
        expanded: 0,
    })
}

/// Asks the finder for a game on lines.
fn worth_on_lines<S: Finder>(
    alloc: Global,
    game: &Game,
    budget: Budget,
    finder: &mut S,
) -> Result<Worth, Memory>
    requires { IsBudget budget }
    ensures worth { IfOk result (IsWorthOnLines (S.brings finder.old) budget game.now) }
    ensures same { (other : Game) → (allowed : Budget) → (later : Outcome)
        → S.brings finder.new other allowed later
        → S.brings finder.old other allowed later }
{
    shown_scores_are_values();
    let found = answer(alloc, game, budget, finder)?;
    let expanded = found.expanded;
    match &found.finding {
        Finding::Certificate { score, certificate } => {
            let nodes = node_count(certificate);
            Ok(Worth::Known {
                score: *score,
                nodes,
                expanded,
            })
        }
        Finding::Open => Ok(Worth::Unknown { expanded }),
    }
}

/// Returns what is known of a game: by two forests of a switching game, else by the finder.
pub(crate) fn worth_of<S: Finder>(
    alloc: Global,
    game: &Game,
    budget: Budget,
    finder: &mut S,
) -> Result<Worth, Memory>
    requires { IsBudget budget }
    ensures worth { IfOk result (IsWorth (S.brings finder.old) budget game.now) }
    ensures same { (other : Game) → (allowed : Budget) → (later : Outcome)
        → S.brings finder.new other allowed later
        → S.brings finder.old other allowed later }
{
    match game.kind {
        Kind::Switching => worth_on_graph(alloc, game),
        _ => worth_on_lines(alloc, game, budget, finder),
    }
}
