//! The questions that are asked of a game on lines: whether X wins, and whether X at least draws.
ghost use Rattle.std.specs.Prelude.{◌≡◌, ◌≢◌, false, IfOk};
ghost use Rattle.pg_solve.specs.Prelude.{MakerMaker, Switching, XWins};
ghost use Rattle.pg_pns.specs.Reading.{IsBudget};
ghost use Rattle.pg_solve.specs.Left.{IsLeft};
ghost use Rattle.pg_solve.specs.Searched.{IsSearched};
ghost use Rattle.pg_solve.specs.Solved.{IsFoundBy};

use crate::solution::Solution;
use pg_base::{Kind, Memory, Score};
use pg_cert::Claim;
use pg_game::Game;
use pg_lehman::{one_claim, two_claims};
use pg_pns::{Found, Work, search};
use std::alloc::Global;

/// Asks whether X at least draws, where Y's claim denies X the win.
fn ask_second(
    alloc: Global,
    game: &Game,
    budget: u32,
    work: &mut Work,
    denial: Claim,
) -> Result<Solution, Memory>
    requires kind { game.now.kind ≡ MakerMaker }
    requires budget { IsBudget game.now budget }
    requires denied { IsSearched game.now budget XWins false denial }
    ensures found { IfOk result (IsFoundBy game.now budget work.new) }
    ensures left { IsLeft game.now budget work.new }
{
    match search(alloc, game, Score::Draw, budget, work)? {
        Found::Yes(claim) => Ok(Solution::Value {
            score: Score::Draw,
            certificate: two_claims(alloc, denial, claim)?,
        }),
        Found::No(claim) => Ok(Solution::Value {
            score: Score::YWins,
            certificate: one_claim(alloc, claim)?,
        }),
        Found::Unknown => Ok(Solution::Unknown),
    }
}

/// Asks whether X wins, and in Maker-Maker, where X doesn't, whether X at least draws.
pub(crate) fn ask_first(
    alloc: Global,
    game: &Game,
    budget: u32,
    work: &mut Work,
) -> Result<Solution, Memory>
    requires lines { game.now.kind ≢ Switching }
    requires budget { IsBudget game.now budget }
    ensures found { IfOk result (IsFoundBy game.now budget work.new) }
    ensures left { IsLeft game.now budget work.new }
{
    let denial = match search(alloc, game, Score::XWins, budget, work)? {
        Found::Yes(claim) => {
            return Ok(Solution::Value {
                score: Score::XWins,
                certificate: one_claim(alloc, claim)?,
            });
        }
        Found::No(claim) => claim,
        Found::Unknown => return Ok(Solution::Unknown),
    };
    match game.kind {
        Kind::MakerMaker => ask_second(alloc, game, budget, work, denial),
        _ => Ok(Solution::Value {
            score: Score::YWins,
            certificate: one_claim(alloc, denial)?,
        }),
    }
}
