//! The weights of free points.
ghost use Rattle.std.specs.Prelude.{◌≡◌, ◌<◌, ◌≤◌, ◌++◌, ◌/◌, OnOk, length, get_or, map, ℕ};
ghost use Rattle.pg_scene.specs.Prelude.{decimal, free_points};
ghost use Rattle.pg_scene.specs.Prelude.{point_count, is_free, greatest_length, point_weight};
ghost use Rattle.pg_captions.specs.Lightest.{base_of, most_free, own_of};
ghost use Rattle.pg_scene.specs.Items.{unit_weight, units};
ghost use Rattle.pg_scene.specs.Items.{weight_items};

use crate::item::Item;
use pg_base::{Memory, Side};
use pg_captions::{base_of, decimal_text, most_free, own_of};
use pg_game::{Field, Game, MAX_POINTS, Position, Weights, greatest_length, weigh};
use std::alloc::Global;

/// The weight that counts as one for the claimer.
fn unit_weight(g: &Game, p: &Position, side: Side) -> u128
    ensures unit { result
        ≡ unit_weight (base_of g.now.kind g.now.bias) g.now (own_of g.now.kind p.now side) p.now }
    ensures some { 1 ≤ result }
{
    let steps = greatest_length(g.lines()) - most_free(g, p, side);
    u128::from(base_of(g)).pow(steps as u32)
}

/// The weights for a claimer.
fn weights_for(g: &Game, p: &Position, side: Side) -> Weights
    ensures count { length result.points ≡ MAX_POINTS }
    ensures points { (v : ℕ) → v < MAX_POINTS
        → get_or result.points v 0 ≡ point_weight (base_of g.now.kind g.now.bias) g.now
        (own_of g.now.kind p.now side) p.now v }
{
    weigh(g, u128::from(base_of(g)), own_of(g, p, side), p)
}

/// Puts the weight of each free point, in units, where there are no more points than in a game on
/// lines.
fn put_each(
    alloc: Global,
    items: &mut Vec<Item>,
    g: &Game,
    p: &Position,
    side: Side,
) -> Result<(), Memory>
    requires { point_count g.now ≤ MAX_POINTS }
    ensures { OnOk result
        (items.new.items ≡ items.old.items ++ map
        (λ v. Item.Weight v (decimal (units g.now p.now side v))) (free_points g.now p.now)) }
{
    let weights = weights_for(g, p, side);
    let unit = unit_weight(g, p, side);
    for v in 0..g.points() {
        if p.is_free(v) {
            let weight = decimal_text(alloc, weights.points[usize::from(v)] / unit)?;
            items.push(Item::Weight { point: v, weight })?;
        }
    }
    Ok(())
}

/// Puts the weight of each free point, in a game on lines.
pub(crate) fn put_weights(
    alloc: Global,
    items: &mut Vec<Item>,
    g: &Game,
    p: &Position,
    side: Side,
) -> Result<(), Memory>
    ensures { OnOk result (items.new.items ≡ items.old.items ++ weight_items g.now p.now side) }
{
    match &g.field {
        Field::Lines(_) => put_each(alloc, items, g, p, side),
        Field::Graph(_) => Ok(()),
    }
}
