//! Private pairs, and lines that are short of free points.
ghost use Rattle.std.specs.Prelude.{◌<◌, ◌≤◌, IfSome, length};
ghost use Rattle.std.specs.List.{All};
ghost use Rattle.pg_base.specs.declared.limits.TheConstants.{MAX_MEMBERS};
ghost use Rattle.pg_game.specs.declared.bounds.TheConstants.{MAX_LINES};

use crate::plainly::{are_private, is_short};
use pg_base::{Lines, Memory, Side};
use pg_game::{Field, Game};
use pg_match::{Matching, PairCache, lines_without, pairs_leaf, private_pairs, with_rest};
use pg_plain::{game, part};
use std::alloc::Global;

/// The lines of a game on lines.
pub(crate) fn lines_of(g: &Game) -> Option<&Lines>
    ensures few { IfSome result (λ lines. length lines.now ≤ MAX_LINES) }
    ensures range { IfSome result (λ lines. All (All (λ v. v < MAX_MEMBERS)) lines.now) }
{
    match &g.field {
        Field::Lines(field) => Some(&field.lines),
        Field::Graph(_) => None,
    }
}

/// The answer as text.
fn told(alloc: Global, found: &Matching) -> Result<String, Memory> {
    let mut text = String::new(alloc);
    match found {
        Matching::Pairs(pairs) => {
            for s in pairs {
                text.push_str(&format!(in alloc; " {}-{}", s.a, s.b)?)?;
            }
        }
        Matching::Short(family) => {
            text.push_str("short")?;
            for j in family {
                text.push_str(&format!(in alloc; " {j}")?)?;
            }
        }
    }
    Ok(text)
}

/// Whether a new cache gives this answer at the first ask, and again at the second, which alone is
/// a hit.
fn answers_twice(alloc: Global, g: &Game, answer: &str) -> Result<bool, Memory> {
    let Some(lines) = lines_of(g) else {
        return Ok(false);
    };
    let start = g.start();
    let wanted = lines_without(alloc, lines, &start.y)?;
    let free = g.free_points(&start);
    let mut cache = PairCache::new(alloc, 1024)?;
    let first = told(alloc, &cache.ask(alloc, lines, &wanted, &free)?)?;
    let hits_before = cache.hits();
    let second = told(alloc, &cache.ask(alloc, lines, &wanted, &free)?)?;
    let same = first.as_str() == answer && second.as_str() == answer;
    Ok(same && hits_before == 0 && cache.hits() == 1)
}

/// Whether matching gives the answer of the row, and a cache gives it twice.
fn is_answered_twice(alloc: Global, row: &str) -> Option<bool> {
    let g = game(alloc, row)?;
    answers_twice(alloc, &g, part(row, 4)).ok()
}

/// The pairs that Avoider has at the start, with those of the rest.
fn with_others(alloc: Global, g: &Game) -> Result<String, Memory> {
    let Some(lines) = lines_of(g) else {
        return Ok(String::new(alloc));
    };
    let start = g.start();
    let wanted = lines_without(alloc, lines, &start.y)?;
    match private_pairs(alloc, lines, &wanted, &g.free_points(&start))? {
        Matching::Pairs(pairs) => told(alloc, &Matching::Pairs(with_rest(g, &start, pairs)?)),
        short => told(alloc, &short),
    }
}

/// Whether the pairs and those of the rest are as the row tells.
fn has_rest(alloc: Global, row: &str) -> Option<bool> {
    let g = game(alloc, row)?;
    Some(with_others(alloc, &g).ok()?.as_str() == part(row, 4))
}

/// Whether matching finds private pairs where there are some, and else lines that are short.
fn matches(alloc: Global, g: &Game, exist: bool) -> Result<bool, Memory> {
    let Some(lines) = lines_of(g) else {
        return Ok(false);
    };
    let start = g.start();
    let wanted = lines_without(alloc, lines, &start.y)?;
    let free = g.free_points(&start);
    Ok(match private_pairs(alloc, lines, &wanted, &free)? {
        Matching::Pairs(pairs) => exist && are_private(lines.as_slice(), &wanted, &free, &pairs),
        Matching::Short(family) => !exist && is_short(lines.as_slice(), &wanted, &free, &family),
    })
}

/// Whether the leaf of pairs has some exactly where there are some.
fn leaf_matches(alloc: Global, g: &Game, exist: bool) -> Result<bool, Memory> {
    let mut cache = PairCache::new(alloc, 1)?;
    let pairs = pairs_leaf(alloc, g, &g.start(), Side::Y, &mut cache)?;
    Ok(pairs.is_some() == exist)
}

/// Whether the lines without a point of Y have private pairs exactly where the row says so.
fn is_family_so(alloc: Global, row: &str) -> Option<bool> {
    let g = game(alloc, row)?;
    let exist = part(row, 4) == "yes";
    Some(matches(alloc, &g, exist).ok()? && leaf_matches(alloc, &g, exist).ok()?)
}

/// Whether the row is as it tells, of the question that the word names; None where it names none,
/// the row can't be read, or no memory is found.
pub(crate) fn is_so(alloc: Global, question: &str, row: &str) -> Option<bool> {
    match question {
        // what matching answers.
        "pairs" => is_answered_twice(alloc, row),
        // private pairs with those of the rest.
        "rest" => has_rest(alloc, row),
        // whether there are private pairs.
        "families" => is_family_so(alloc, row),
        _ => None,
    }
}
