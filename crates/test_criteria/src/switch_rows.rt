//! Trees and cuts, and the first moves by them.
ghost use Rattle.pg_game.specs.Game.{IsPosition};

use crate::told::{asked_side, due, is_point, turn_of, yes_or_no};
use pg_base::{Kind, PointSet, Side};
use pg_game::{Game, Judge, Position, joiner_for};
use pg_plain::{part, set};
use pg_switch::{CutPlan, ShortPlan, cuts_hold, trees_hold};
use std::alloc::Global;

/// Whether the side's sets hold: trees for X and cuts for Y. There is no answer where the game
/// isn't on a graph, a set has other members than its edges and e, or no memory is found.
fn hold(
    alloc: Global,
    g: &Game,
    p: &Position,
    side: Side,
    first: &PointSet,
    second: &PointSet,
) -> Option<bool>
    requires { IsPosition g.now p.now }
{
    let limit = g.points() + 1;
    if g.kind != Kind::Switching || !first.is_below(limit) || !second.is_below(limit) {
        return None;
    }
    let mut j = joiner_for(alloc, g).ok()??;
    Some(match side {
        Side::X => trees_hold(g, &mut j, p, first, second),
        Side::Y => cuts_hold(g, &mut j, p, first, second),
    })
}

/// The side's first move by its sets, where they hold: X's by trees, Y's by cuts.
fn first_move(
    alloc: Global,
    g: &Game,
    p: &Position,
    side: Side,
    first: PointSet,
    second: PointSet,
) -> Option<u16>
    requires { IsPosition g.now p.now }
{
    let limit = g.points() + 1;
    if g.kind != Kind::Switching || !first.is_below(limit) || !second.is_below(limit) {
        return None;
    }
    let mut j = joiner_for(alloc, g).ok()??;
    let mut judge = Judge::new(alloc, g).ok()?;
    if p.turn != side || judge.over(g, p).is_some() {
        return None;
    }
    match side {
        Side::X if trees_hold(g, &mut j, p, &first, &second) => {
            Some(ShortPlan::start(first, second).answer(g, &mut j, p, None))
        }
        Side::Y if cuts_hold(g, &mut j, p, &first, &second) => {
            Some(CutPlan::start(first, second).answer(g, &mut j, p, None))
        }
        _ => None,
    }
}

/// The two sets that the row tells.
fn sets(alloc: Global, row: &str) -> Option<(PointSet, PointSet)> {
    Some((set(alloc, part(row, 5))?, set(alloc, part(row, 6))?))
}

/// Whether the row tells whether its sets hold for its side.
pub(crate) fn are_sets(alloc: Global, g: &Game, row: &str) -> Option<bool> {
    let (first, second) = sets(alloc, row)?;
    let p = turn_of(g, g.turn);
    Some(yes_or_no(hold(alloc, g, &p, asked_side(row), &first, &second)?) == due(row))
}

/// Whether the row tells the first move of its side by its sets.
pub(crate) fn is_first_move(alloc: Global, g: &Game, row: &str) -> Option<bool> {
    let (first, second) = sets(alloc, row)?;
    let p = turn_of(g, g.turn);
    Some(is_point(
        first_move(alloc, g, &p, asked_side(row), first, second),
        due(row),
    ))
}
