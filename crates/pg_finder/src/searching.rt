//! The searches that the finder asks.
ghost use Rattle.std.specs.Prelude.{◌≡◌, ◌≢◌, ◌≤◌, IfOk};
ghost use Rattle.std.specs.List.{list_all};
ghost use Rattle.pg_base.specs.declared.kind.Kind.TheVariants.{MakerBreaker, MakerMaker, Switching};
ghost use Rattle.pg_base.specs.declared.score.Score.TheVariants.{XWins};
ghost use Rattle.pg_cert.specs.Limits.{IsOfVersion, has_body};
ghost use Rattle.pg_cert.specs.declared.cert.Version.TheVariants.{One};
ghost use Rattle.pg_dfpn.specs.Settled.{IsSettled};
ghost use Rattle.pg_game.specs.declared.game.Game.{Game};
ghost use Rattle.pg_zone_proofs.specs.Settled.{IsSettled as IsSettledByPatterns};
ghost use Rattle.pg_finder.specs.Claims.{IsAnswered, least_version};

use pg_base::{Kind, Memory, Score};
use pg_cert::{Body, Claim, Node, Version};
use pg_dfpn::Settled;
use pg_game::Game;
use pg_limits::{Limits, Watch};
use pg_settle::Budget;
use std::alloc::Global;

/// How many steps may be spent on shared pairs at the game's own position.
const FIRST_STEPS: u32 = 200_000;

/// How many steps may be spent on shared pairs at any other position.
const STEPS: u32 = 60;

/// Whether X wins, with the winner's claim and a version of the format that has its bodies.
#[derive(Debug, Drop)]
pub(crate) enum Answer {
    /// X wins.
    Yes(Version, Claim),
    /// Y wins.
    No(Version, Claim),
    /// The budget doesn't suffice.
    Unknown,
}

/// An answer, and what that took.
#[derive(Debug, Drop)]
pub(crate) struct Searched {
    /// The answer.
    pub(crate) answer: Answer,
    /// How many positions were expanded.
    pub(crate) expanded: u32,
}

/// What a search may use by the budget.
pub(crate) fn limits_of(budget: Budget) -> Limits
    ensures positions { result.positions ≡ budget.positions }
    ensures entries { result.entries ≡ budget.entries }
    ensures first_steps { result.first_steps ≡ FIRST_STEPS }
    ensures steps { result.steps ≡ STEPS }
{
    Limits {
        positions: budget.positions,
        entries: budget.entries,
        first_steps: FIRST_STEPS,
        steps: STEPS,
    }
}

/// The answer of the search by proof numbers, all of whose claims have bodies of version 1.
fn answer_of(settled: Settled) -> Answer
    ensures { (g : Game) → g.kind ≢ MakerMaker → IsSettled g XWins settled
        → IsAnswered g result }
{
    match settled {
        Settled::Yes(claim) => Answer::Yes(Version::One, claim),
        Settled::No(claim) => Answer::No(Version::One, claim),
        Settled::Unknown => Answer::Unknown,
    }
}

/// Whether version 1 of the format has the body.
fn is_plain(body: &Body) -> bool
    ensures { result ≡ has_body One body.now }
{
    !matches!(body, Body::Weaker { .. })
}

/// Whether version 1 of the format has all bodies of the nodes.
fn are_plain(nodes: &[Node]) -> bool
    ensures { result ≡ list_all (λ node. has_body One node.body) nodes.now }
{
    nodes.iter().all(|node| is_plain(&node.body))
}

/// The least version of the format that has the bodies of the claim's nodes.
fn version_of(claim: &Claim) -> Version
    ensures exact { result ≡ least_version claim.now }
    ensures bodies { IsOfVersion result claim.now }
{
    if are_plain(claim.nodes.as_slice()) {
        Version::One
    } else {
        Version::Two
    }
}

/// The answer of the search by patterns, whose claims may have bodies of version 2.
fn answer_by_patterns(settled: Settled) -> Answer
    ensures { (g : Game) → IsSettledByPatterns g settled → IsAnswered g result }
{
    match settled {
        Settled::Yes(claim) => Answer::Yes(version_of(&claim), claim),
        Settled::No(claim) => Answer::No(version_of(&claim), claim),
        Settled::Unknown => Answer::Unknown,
    }
}

/// Searches for whether X wins a game without draws, by proof numbers of positions.
fn search_positions<W: Watch>(
    alloc: Global,
    game: &Game,
    budget: Budget,
    watch: &mut W,
) -> Result<Searched, Memory>
    requires lines { game.now.kind ≢ Switching }
    requires drawless { game.now.kind ≢ MakerMaker }
    ensures answer { IfOk result (λ found. IsAnswered game.now found.answer) }
    ensures few { IfOk result (λ found. found.expanded ≤ budget.positions) }
{
    let found = pg_dfpn::settle(alloc, game, Score::XWins, limits_of(budget), watch)?;
    let answer = answer_of(found.answer);
    Ok(Searched {
        answer,
        expanded: found.expanded,
    })
}

/// Searches for whether Maker wins by patterns, where each side claims one point a turn.
fn search_patterns<W: Watch>(
    alloc: Global,
    game: &Game,
    budget: Budget,
    watch: &mut W,
) -> Result<Searched, Memory>
    requires kind { game.now.kind ≡ MakerBreaker }
    requires single { game.now.bias ≡ 1 }
    ensures answer { IfOk result (λ found. IsAnswered game.now found.answer) }
    ensures few { IfOk result (λ found. found.expanded ≤ budget.positions) }
{
    let found = pg_zone_proofs::settle(alloc, game, limits_of(budget), watch)?;
    let answer = answer_by_patterns(found.answer);
    Ok(Searched {
        answer,
        expanded: found.expanded,
    })
}

/// Searches for whether X wins a game without draws.
pub(crate) fn search<W: Watch>(
    alloc: Global,
    game: &Game,
    budget: Budget,
    watch: &mut W,
) -> Result<Searched, Memory>
    requires lines { game.now.kind ≢ Switching }
    requires drawless { game.now.kind ≢ MakerMaker }
    ensures answer { IfOk result (λ found. IsAnswered game.now found.answer) }
    ensures few { IfOk result (λ found. found.expanded ≤ budget.positions) }
{
    if game.bias != 1 {
        return search_positions(alloc, game, budget, watch);
    }
    match game.kind {
        Kind::MakerBreaker => search_patterns(alloc, game, budget, watch),
        _ => search_positions(alloc, game, budget, watch),
    }
}
