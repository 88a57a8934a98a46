//! Private pairs for all lines of a game, asked for again and again, also through a cache: what
//! `bench/parts.py` measures.
use crate::matching::lines_of;
use pg_base::Memory;
use pg_game::Game;
use pg_match::{Matching, PairCache, lines_without, private_pairs};
use std::alloc::{AllocError, Global};

/// How many pairs the last of so many asks gives; 0 where lines are short.
fn asked(alloc: Global, g: &Game, asks: u32) -> Result<usize, Memory> {
    let Some(lines) = lines_of(g) else {
        return Ok(0);
    };
    let start = g.start();
    let wanted = lines_without(alloc, lines, &start.y)?;
    let free = g.free_points(&start);
    let mut found = 0;
    for _ in 0..asks {
        found = match private_pairs(alloc, lines, &wanted, &free)? {
            Matching::Pairs(pairs) => pairs.len(),
            Matching::Short(_) => 0,
        };
    }
    Ok(found)
}

/// How many of so many asks a new cache has the answer to.
fn cached(alloc: Global, g: &Game, asks: u32) -> Result<u64, Memory> {
    let Some(lines) = lines_of(g) else {
        return Ok(0);
    };
    let start = g.start();
    let wanted = lines_without(alloc, lines, &start.y)?;
    let free = g.free_points(&start);
    let mut cache = PairCache::new(alloc, 1024)?;
    for ask in 0..asks {
        let _answer = cache.ask(alloc, lines, &wanted, &free)?;
    }
    Ok(cache.hits())
}

/// What so many queries give, through a cache where a word says so.
pub(crate) fn told(alloc: Global, g: &Game, asks: &str, word: &str) -> Result<String, AllocError> {
    let asks = asks.parse::<u32>().unwrap_or(0);
    if word.is_empty() {
        return match asked(alloc, g, asks) {
            Ok(pairs) => format!(in alloc; "{pairs} pairs"),
            Err(_) => String::from_str(alloc, "no memory"),
        };
    }
    match cached(alloc, g, asks) {
        Ok(hits) => format!(in alloc; "{hits} hits"),
        Err(_) => String::from_str(alloc, "no memory"),
    }
}
