//! The questions that tables ask.
use crate::told::due;
use crate::{pairing_rows, plain_rows, potential_rows, switch_rows, tables};
use pg_game::Game;
use pg_plain::game;
use std::alloc::Global;

/// Whether the row tells what is so of the game, of the question with this name; none where there
/// is no such question, or the row tells no more than that game.
fn is_so_in(alloc: Global, g: &Game, question: &str, row: &str) -> Option<bool> {
    match question {
        // at how many positions the potential holds, how many sets of pairs hold at them, and at
        // how many the value reaches the goal.
        "claims" => tables::is_claim(alloc, g, row),
        // at how many positions the side to move wins by its next move, at how many by a threat
        // line, and at how many by its value.
        "attacks" => tables::are_attacks(alloc, g, row),
        // how many positions X wins, and how many pairs of sets are trees, and how many cuts, at
        // all of them.
        "trees-and-cuts" => tables::are_trees_and_cuts(alloc, g, row),
        // whether the potential holds and the side forces a win, with X and with Y to move.
        "starts" => tables::are_starts(alloc, g, row),
        // whether pairs hold.
        "pairs" => pairing_rows::are_pairs(alloc, g, row),
        // the answer by pairs after moves.
        "answer-by-pairs" => pairing_rows::is_answer(alloc, g, row),
        // Breaker's total and limit, and whether the potential holds with X and with Y to move.
        "breaker-potential" => potential_rows::is_breaker(g, row),
        // whether Avoider's potential holds with X and with Y to move.
        "avoider-potential" => Some(potential_rows::is_avoider(g, row)),
        // what a free point weighs.
        "weight" => potential_rows::is_weight(g, row),
        // the answer by a potential.
        "answer-by-potential" => Some(potential_rows::is_answer(g, row)),
        // whether trees or cuts hold.
        "sets" => switch_rows::are_sets(alloc, g, row),
        // the first move by trees or cuts.
        "first-move" => switch_rows::is_first_move(alloc, g, row),
        // the value of the game.
        "value" => Some(plain_rows::value_word(alloc, g)? == due(row)),
        // the class of the game.
        "class" => Some(plain_rows::class_word(alloc, g)? == due(row)),
        // whether points are a threat line of X.
        "threat-line" => Some(plain_rows::line_word(alloc, g, row)? == due(row)),
        // the least depth within which the side to move has a threat line, and whether one wins.
        "depth" => Some(plain_rows::depth_is_due(g, due(row))),
        // whether the lines without a point of Y can have private pairs.
        "private-pairs" => Some(plain_rows::private_word(g) == due(row)),
        _ => None,
    }
}

/// Whether the row tells what is so, of the question with this name; none where there is no such
/// question, or the row can't be read.
pub(crate) fn is_so(alloc: Global, question: &str, row: &str) -> Option<bool> {
    let g = game(alloc, row)?;
    is_so_in(alloc, &g, question, row)
}
