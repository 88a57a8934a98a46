//! Shared pairs.

use pg_base::{Memory, Pair};
use pg_game::Game;
use pg_plain::{game, part, side, word};
use pg_shared::shared_pairs;
use std::alloc::Global;

/// The pairs as text, `none` where there are none.
fn told(alloc: Global, found: &Option<Vec<Pair>>) -> Result<String, Memory> {
    let mut text = String::new(alloc);
    let Some(pairs) = found else {
        text.push_str(" none")?;
        return Ok(text);
    };
    for s in pairs {
        text.push_str(&format!(in alloc; " {}-{}", s.a, s.b)?)?;
    }
    Ok(text)
}

/// The pairs of the side that the word names, in so many steps.
fn found(alloc: Global, g: &Game, of: &str, steps: u32) -> Result<String, Memory> {
    told(alloc, &shared_pairs(alloc, g, &g.start(), side(of), steps)?)
}

/// Whether the pairs that are found are those that the row tells.
pub(crate) fn is_so(alloc: Global, row: &str) -> Option<bool> {
    let g = game(alloc, row)?;
    let asked = part(row, 4);
    let Ok(steps) = word(asked, 1).parse::<u32>() else {
        return None;
    };
    Some(found(alloc, &g, word(asked, 0), steps).ok()?.as_str() == part(row, 5))
}
