//! Lists whose members are numbered.
ghost use Rattle.std.specs.Prelude.{◌≡◌, ◌<◌, ◌+◌, ◌++◌, ◌&&◌, OnOk};
ghost use Rattle.pg_scene.specs.Items.{numbered, pair_item, pair_items, step_item};

use crate::item::Item;
use pg_base::{Memory, Pair};

/// Puts a pair with its number, where both points are below n.
fn put_pair(items: &mut Vec<Item>, n: u16, number: usize, pair: Pair) -> Result<(), Memory>
    ensures { OnOk result (items.new.items ≡ items.old.items ++ pair_item n number pair) }
{
    let first = pair.a;
    let second = pair.b;
    if first < n && second < n {
        items.push(Item::Pair {
            first,
            second,
            number,
        })?;
    }
    Ok(())
}

/// Puts the pairs among the first n whose points are below n.
pub(crate) fn put_pairs(items: &mut Vec<Item>, n: u16, pairs: &[Pair]) -> Result<(), Memory>
    ensures { OnOk result (items.new.items ≡ items.old.items ++ pair_items n pairs.now) }
{
    let count = (n as usize).min(pairs.len());
    for i in 0..count {
        put_pair(items, n, i, pairs[i])?;
    }
    Ok(())
}

/// Puts a point with its number, where it is below n.
fn put_step(items: &mut Vec<Item>, n: u16, number: usize, point: u16) -> Result<(), Memory>
    ensures { OnOk result (items.new.items ≡ items.old.items ++ step_item n number point) }
{
    if point < n {
        items.push(Item::Step { point, number })?;
    }
    Ok(())
}

/// Puts the points below n of a threat line.
pub(crate) fn put_steps(items: &mut Vec<Item>, n: u16, points: &[u16]) -> Result<(), Memory>
    ensures { OnOk result
        (items.new.items ≡ items.old.items ++ numbered (step_item n) 1 points.now) }
{
    for i in 0..points.len() {
        put_step(items, n, i + 1, points[i])?;
    }
    Ok(())
}
