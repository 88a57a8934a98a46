//! Trees of play.

use pg_base::Memory;
use pg_cert::Cert;
use pg_check::check;
use pg_game::Game;
use pg_plain::{game, part};
use pg_play_tree::play_tree;
use pg_pns::Work;
use pg_solve::{MIN_POSITIONS, Solution, solve};
use std::alloc::Global;

/// The tree of play of the certificate of the game's class, if it has at most `most` nodes.
fn tree_of(alloc: Global, g: &Game, most: u32) -> Result<Option<Cert>, Memory> {
    let solution = solve(alloc, g, MIN_POSITIONS, &mut Work::new(alloc))?;
    let Solution::Class { certificate, .. } = solution else {
        return Ok(None);
    };
    match check(alloc, g, &certificate) {
        Ok(checked) => play_tree(alloc, checked, most),
        Err(_) => Ok(None),
    }
}

/// The number of nodes of each claim as text, `none` where there is no tree.
fn told(alloc: Global, tree: &Option<Cert>) -> Result<String, Memory> {
    let mut text = String::new(alloc);
    let Some(tree) = tree else {
        text.push_str(" none")?;
        return Ok(text);
    };
    for claim in tree.claims.as_slice() {
        text.push_str(&format!(in alloc; " {}", claim.nodes.as_slice().len())?)?;
    }
    Ok(text)
}

/// Whether the tree of play is the one that the row tells.
pub(crate) fn is_so(alloc: Global, row: &str) -> Option<bool> {
    let g = game(alloc, row)?;
    let Ok(most) = part(row, 4).parse::<u32>() else {
        return None;
    };
    let tree = tree_of(alloc, &g, most).ok()?;
    Some(told(alloc, &tree).ok()?.as_str() == part(row, 5))
}
