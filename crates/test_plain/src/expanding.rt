//! Which positions a search expands, and that it asks the cache of pairs.
use pg_base::{Kind, PointSet, Score, Side};
use pg_game::Game;
use pg_match::PairCache;
use pg_pns::{Found, Work, budget_of, search, search_with};
use std::alloc::{AllocError, Global};
use std::fmt::Write;

/// What the search finds with so many positions where it is asked whether X wins.
pub(crate) fn found(alloc: Global, g: &Game, positions: u32, work: &mut Work) -> Option<Found> {
    if g.kind == Kind::Switching || positions == 0 || positions > 100_000 {
        return None;
    }
    let budget = budget_of(g, positions);
    search(alloc, g, Score::XWins, budget, work).ok()
}

/// Adds the members of a set below 256, with a space between them.
fn push_members(text: &mut String, set: &PointSet) -> Result<(), AllocError> {
    let mut gap = "";
    for v in 0..256u16 {
        if set.has(v) {
            write!(text, "{gap}{v}")?;
            gap = " ";
        }
    }
    Ok(())
}

/// The positions that were expanded, in order, each as `X|Y|TURN` with commas between them.
fn expanded(alloc: Global, work: &Work) -> Result<String, AllocError> {
    let mut text = String::new(alloc);
    for i in 0..work.positions() {
        let p = work.position(i);
        text.push_str(if i == 0 { "" } else { "," })?;
        push_members(&mut text, &p.x)?;
        text.push('|')?;
        push_members(&mut text, &p.y)?;
        text.push_str(if p.turn == Side::X { "|x" } else { "|y" })?;
    }
    Ok(text)
}

/// Whether these positions are expanded, in this order, with so many of them at most.
pub(crate) fn is_expanded(
    alloc: Global,
    g: &Game,
    positions: u32,
    due: &str,
    work: &mut Work,
) -> Option<bool> {
    let _found = found(alloc, g, positions, work)?;
    let text = expanded(alloc, work).ok()?;
    Some(text.as_str() == due)
}

/// Whether a cache of pairs has an answer where the game is searched twice with it.
pub(crate) fn is_cached(alloc: Global, g: &Game, work: &mut Work) -> Option<bool> {
    if g.kind == Kind::Switching {
        return None;
    }
    let mut cache = PairCache::new(alloc, 1024).ok()?;
    let budget = budget_of(g, 100);
    let _first = search_with(alloc, g, Score::XWins, budget, work, &mut cache).ok()?;
    let _second = search_with(alloc, g, Score::XWins, budget, work, &mut cache).ok()?;
    Some(cache.hits() > 0)
}
