//! The questions that the finder asks.
ghost use Rattle.std.specs.Prelude.{◌≡◌, ◌≢◌, ◌≤◌, IfOk, false};
ghost use Rattle.pg_base.specs.declared.kind.Kind.TheVariants.{MakerMaker, Switching};
ghost use Rattle.pg_base.specs.declared.score.Score.TheVariants.{Draw, XWins};
ghost use Rattle.pg_dfpn.specs.Settled.{IsClaimFor, IsSettled};
ghost use Rattle.pg_settle.specs.Findings.{IsWritable};
ghost use Rattle.pg_finder.specs.Claims.{IsAnswered};
ghost use Rattle.pg_finder.specs.Findings.{IsFound};

use crate::bringing::{found_by_one, found_by_two};
use crate::searching::{Answer, limits_of, search};
use pg_base::{Kind, Memory, Score};
use pg_cert::{Claim, Version};
use pg_dfpn::{Settled, settle};
use pg_game::Game;
use pg_limits::Watch;
use pg_settle::{Budget, Finder, Finding, Outcome};
use std::alloc::Global;

/// The searches by proof numbers: in Maker-Breaker with one point a turn that over patterns
/// (`pg_zone_proofs`), else that over positions (`pg_dfpn`). Of a game they are asked whether X
/// wins, and in Maker-Maker, if X doesn't, whether X at least draws. Of a switching game nothing is
/// asked.
#[derive(Clone, Copy, Debug)]
pub struct ProofNumbers<W> {
    /// Who is told how far a search is.
    pub watch: W,
}

/// The certificate of an answer.
fn finding_of(alloc: Global, game: &Game, budget: Budget, answer: Answer) -> Result<Finding, Memory>
    requires { IsAnswered game.now answer }
    ensures writable { IfOk result IsWritable }
    ensures found { IfOk result (IsFound game.now budget) }
{
    match answer {
        Answer::Yes(version, claim) => {
            found_by_one(alloc, game, budget, Score::XWins, version, claim)
        }
        Answer::No(version, claim) => {
            found_by_one(alloc, game, budget, Score::YWins, version, claim)
        }
        Answer::Unknown => Ok(Finding::Open),
    }
}

/// Asks whether X wins a game without draws.
fn ask_once<W: Watch>(
    alloc: Global,
    game: &Game,
    budget: Budget,
    watch: &mut W,
) -> Result<Outcome, Memory>
    requires lines { game.now.kind ≢ Switching }
    requires drawless { game.now.kind ≢ MakerMaker }
    ensures writable { IfOk result (λ outcome. IsWritable outcome.finding) }
    ensures found { IfOk result (λ outcome. IsFound game.now budget outcome.finding) }
    ensures few { IfOk result (λ outcome. outcome.expanded ≤ budget.positions) }
{
    let found = search(alloc, game, budget, watch)?;
    let expanded = found.expanded;
    let finding = finding_of(alloc, game, budget, found.answer)?;
    Ok(Outcome { finding, expanded })
}

/// The certificate of whether X at least draws in Maker-Maker, where Y's claim denies X the win.
fn drawn(
    alloc: Global,
    game: &Game,
    budget: Budget,
    denial: Claim,
    answer: Settled,
) -> Result<Finding, Memory>
    requires kind { game.now.kind ≡ MakerMaker }
    requires denial { IsClaimFor game.now XWins false denial }
    requires answer { IsSettled game.now Draw answer }
    ensures writable { IfOk result IsWritable }
    ensures found { IfOk result (IsFound game.now budget) }
{
    match answer {
        Settled::Yes(claim) => found_by_two(alloc, game, budget, denial, claim),
        Settled::No(claim) => {
            found_by_one(alloc, game, budget, Score::YWins, Version::One, claim)
        }
        Settled::Unknown => Ok(Finding::Open),
    }
}

/// Asks whether X at least draws in Maker-Maker, where Y's claim denies X the win and `before`
/// positions were expanded for that.
fn ask_again<W: Watch>(
    alloc: Global,
    game: &Game,
    budget: Budget,
    denial: Claim,
    before: u32,
    watch: &mut W,
) -> Result<Outcome, Memory>
    requires kind { game.now.kind ≡ MakerMaker }
    requires denial { IsClaimFor game.now XWins false denial }
    requires few { before ≤ budget.positions }
    ensures writable { IfOk result (λ outcome. IsWritable outcome.finding) }
    ensures found { IfOk result (λ outcome. IsFound game.now budget outcome.finding) }
    ensures few { IfOk result (λ outcome. outcome.expanded ≤ budget.positions) }
{
    let limits = limits_of(budget).after(before);
    let found = settle(alloc, game, Score::Draw, limits, watch)?;
    let expanded = before + found.expanded;
    let finding = drawn(alloc, game, budget, denial, found.answer)?;
    Ok(Outcome { finding, expanded })
}

/// Asks whether X wins in Maker-Maker, and if not, whether X at least draws.
fn ask_twice<W: Watch>(
    alloc: Global,
    game: &Game,
    budget: Budget,
    watch: &mut W,
) -> Result<Outcome, Memory>
    requires { game.now.kind ≡ MakerMaker }
    ensures writable { IfOk result (λ outcome. IsWritable outcome.finding) }
    ensures found { IfOk result (λ outcome. IsFound game.now budget outcome.finding) }
    ensures few { IfOk result (λ outcome. outcome.expanded ≤ budget.positions) }
{
    let found = settle(alloc, game, Score::XWins, limits_of(budget), watch)?;
    let expanded = found.expanded;
    match found.answer {
        Settled::Yes(claim) => {
            let finding = found_by_one(alloc, game, budget, Score::XWins, Version::One, claim)?;
            Ok(Outcome { finding, expanded })
        }
        Settled::No(denial) => ask_again(alloc, game, budget, denial, expanded, watch),
        Settled::Unknown => Ok(Outcome {
            finding: Finding::Open,
            expanded,
        }),
    }
}

impl<W: Watch> Finder for ProofNumbers<W> {
    ghost brings = { λ _ game budget outcome. IsFound game budget outcome.finding };

    fn find(&mut self, alloc: Global, game: &Game, budget: Budget) -> Result<Outcome, Memory> {
        match game.kind {
            Kind::Switching => Ok(Outcome {
                finding: Finding::Open,
                expanded: 0,
            }),
            Kind::MakerMaker => ask_twice(alloc, game, budget, &mut self.watch),
            _ => ask_once(alloc, game, budget, &mut self.watch),
        }
    }
}
