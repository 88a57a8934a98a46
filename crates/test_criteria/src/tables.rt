//! What is found at all positions of a small game, beside what its row tells.
use crate::edge_sets::tally_sets;
use crate::lines::{Tally, is_forced, potential_holds, tally_claim};
use crate::pairings::all_pairings;
use crate::threats::tally_threats;
use crate::told::{asked_side, due, turn_of};
use pg_base::{Goal, Kind, Pairs, Side};
use pg_game::{Game, Judge, joiner_for};
use pg_plain::{part, word};
use std::alloc::Global;

/// Whether the text tells the three numbers, and there is no fault.
fn are_told(alloc: Global, numbers: (u32, u32, u32), faults: u32, text: &str) -> Option<bool> {
    let (first, second, third) = numbers;
    let found = format!(in alloc; "{first} {second} {third}").ok()?;
    Some(faults == 0 && found.as_str() == text)
}

/// What is found of the claim in the game, where it is a small one on lines.
fn claim_in(alloc: Global, g: &Game, side: Side, goal: Goal, pairings: &[Pairs]) -> Option<Tally> {
    if g.kind == Kind::Switching || g.points() > 12 {
        return None;
    }
    let mut judge = Judge::new(alloc, g).ok()?;
    Some(tally_claim(&mut judge, g, side, goal, pairings))
}

/// Whether the row tells of its claim at how many positions the potential holds, how many sets of
/// pairs hold at them, and at how many the value reaches the goal.
pub(crate) fn is_claim(alloc: Global, g: &Game, row: &str) -> Option<bool> {
    let goal = if word(part(row, 0), 5) == "win" {
        Goal::Win
    } else {
        Goal::Draw
    };
    let pairings = all_pairings(alloc).ok()?;
    let tally = claim_in(alloc, g, asked_side(row), goal, pairings.as_slice())?;
    let numbers = (tally.potentials, tally.pairings, tally.forced);
    are_told(alloc, numbers, tally.faults, due(row))
}

/// Whether the row tells at how many positions the side to move wins by its next move, at how many
/// by a threat line, and at how many the value is its win.
pub(crate) fn are_attacks(alloc: Global, g: &Game, row: &str) -> Option<bool> {
    if g.points() > 12 {
        return None;
    }
    let mut judge = Judge::new(alloc, g).ok()?;
    let tally = tally_threats(&mut judge, g);
    let numbers = (tally.at_once, tally.attacks, tally.won);
    are_told(alloc, numbers, tally.faults, due(row))
}

/// Whether the row tells how many positions X wins, and how many pairs of sets are trees and how
/// many are cuts at all of them.
pub(crate) fn are_trees_and_cuts(alloc: Global, g: &Game, row: &str) -> Option<bool> {
    if g.kind != Kind::Switching || g.points() >= 12 {
        return None;
    }
    let mut judge = Judge::new(alloc, g).ok()?;
    let mut joiner = joiner_for(alloc, g).ok()??;
    let tally = tally_sets(&mut judge, g, &mut joiner);
    let numbers = (tally.won, tally.trees, tally.cuts);
    are_told(alloc, numbers, tally.faults, due(row))
}

/// Whether the side's potential holds at the beginning of the turn as the one word says, and
/// whether the side forces a win from there as the other says, in a game on lines.
fn start_is(
    alloc: Global,
    g: &Game,
    side: Side,
    turn: Side,
    holds: &str,
    forced: &str,
) -> Option<bool> {
    if g.kind == Kind::Switching {
        return None;
    }
    let mut judge = Judge::new(alloc, g).ok()?;
    let p = turn_of(g, turn);
    let holds_so = potential_holds(g, &p, side) == (holds == "yes");
    Some(holds_so && is_forced(&mut judge, g, &p, side, Goal::Win) == (forced == "yes"))
}

/// Whether the row tells of both turns whether the side's potential holds, and whether the side
/// forces a win.
pub(crate) fn are_starts(alloc: Global, g: &Game, row: &str) -> Option<bool> {
    let (side, text) = (asked_side(row), due(row));
    let with_x = start_is(alloc, g, side, Side::X, word(text, 0), word(text, 1))?;
    let with_y = start_is(alloc, g, side, Side::Y, word(text, 2), word(text, 3))?;
    Some(with_x && with_y)
}
