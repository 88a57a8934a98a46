//! The search as it is called.
ghost use Rattle.std.specs.Prelude.{◌≡◌, ◌≤◌, ◌*◌, IfOk, length};
ghost use Rattle.pg_pns.specs.Prelude.{free_points, lines_of, start, Fits};
ghost use Rattle.pg_pns.specs.Budget.{budget_for, most_for};
ghost use Rattle.pg_pns.specs.Found.{IsAnswer, IsWorkOf};
ghost use Rattle.pg_met.specs.Reading.{IsAskedOf};
ghost use Rattle.pg_pns.specs.Reading.{IsBudget};

use crate::expansion::explore;
use crate::limits::{MAX_EXPANDED_MOVES, MAX_SEARCH_ANSWERS};
use crate::work::{Found, Work};
use pg_base::{Memory, Score};
use pg_game::Game;
use pg_match::PairCache;
use pg_met::Asked;
use std::alloc::Global;

/// How many positions may be expanded where so many points are free.
fn most_for(free: u32) -> u32
    ensures { result ≡ most_for free }
{
    if free == 0 {
        return MAX_EXPANDED_MOVES;
    }
    MAX_EXPANDED_MOVES / free
}

/// How many positions a search may expand, where so many are asked for: so few that a claim stays
/// within the limits of the format.
pub fn budget_of(g: &Game, positions: u32) -> u32
    ensures exact { result ≡ budget_for (length (free_points g.now (start g.now))) positions }
    ensures most { result ≤ positions }
    ensures some { 1 ≤ positions → 1 ≤ result }
    ensures few { result * length (free_points g.now (start g.now)) ≤ MAX_EXPANDED_MOVES }
{
    let most = most_for(g.free_points(&g.start()).len());
    if positions < most { positions } else { most }
}

/// Whether X reaches the score from the game's position, with the claim that shows it; or that so
/// many expansions don't decide it.
///
/// The positions that are expanded are undecided, and each is one move after one that those before
/// it don't settle. `work` holds them at every answer.
///
/// # Errors
///
/// `Memory` where no memory is found.
pub fn search(
    alloc: Global,
    g: &Game,
    question: Score,
    budget: u32,
    work: &mut Work,
) -> Result<Found, Memory>
    requires asked { IsAskedOf g.now question }
    requires budget { IsBudget g.now budget }
    ensures answer { IfOk result
        (λ found. IsAnswer g.now question budget work.new.positions found) }
    ensures work { IsWorkOf g.now question budget work.new }
{
    work.begin(question);
    let mut cache = PairCache::new(alloc, MAX_SEARCH_ANSWERS)?;
    search_with(alloc, g, question, budget, work, &mut cache)
}

/// The same with a cache of answers on private pairs for the game's lines. It is asked where no
/// earlier criterion decides a position and two counts leave it open whether there are such pairs;
/// no clause says how often.
///
/// # Errors
///
/// `Memory` where no memory is found; the cache then still fits the lines.
pub fn search_with(
    alloc: Global,
    g: &Game,
    question: Score,
    budget: u32,
    work: &mut Work,
    cache: &mut PairCache,
) -> Result<Found, Memory>
    requires asked { IsAskedOf g.now question }
    requires budget { IsBudget g.now budget }
    requires fits { Fits cache.old (lines_of g.now) }
    ensures fits { Fits cache.new (lines_of g.now) }
    ensures answer { IfOk result
        (λ found. IsAnswer g.now question budget work.new.positions found) }
    ensures work { IsWorkOf g.now question budget work.new }
{
    work.begin(question);
    let asked = Asked { game: g, question };
    explore(alloc, asked, budget, &mut work.positions, cache)
}
