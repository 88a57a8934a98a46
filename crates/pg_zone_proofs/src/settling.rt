//! The search as it is called.
ghost use Rattle.std.specs.Prelude.{◌≡◌, ◌≤◌, IfOk};
ghost use Rattle.pg_zone_proofs.specs.Prelude.{MakerBreaker};
ghost use Rattle.pg_zone_proofs.specs.Settled.{IsSettled};

use crate::drafting::nodes_of;
use pg_base::{Goal, Memory, Side};
use pg_cert::{Claim, Nodes};
use pg_dfpn::{Settled, Settling};
use pg_game::Game;
use pg_limits::{Limits, Watch};
use pg_zones::{Found, search};
use std::alloc::Global;

/// Returns the answer that the pattern shows, with its claim; unknown if the claim has too many
/// nodes.
fn claimed<W: Watch>(
    alloc: Global,
    g: &Game,
    found: &Found,
    pattern: u32,
    watch: &mut W,
) -> Result<Settled, Memory>
    ensures { IfOk result (IsSettled g.now) }
{
    let Some(side) = found.known.claimer(pattern) else {
        return Ok(Settled::Unknown);
    };
    let Some(nodes) = nodes_of(alloc, found, pattern, watch)? else {
        return Ok(Settled::Unknown);
    };
    let claim = Claim {
        turn: g.turn,
        side,
        goal: Goal::Win,
        nodes: Nodes::from_vec(nodes),
    };
    match side {
        Side::X => Ok(Settled::Yes(claim)),
        Side::Y => Ok(Settled::No(claim)),
    }
}

/// Returns whether Maker, who is X, wins from the game's position if each side claims one point a
/// turn, with a claim that is to show it; or unknown if the limits don't suffice.
///
/// `search` of `pg_zones` decides the position, and its patterns are written as nodes, each at the
/// position in which the claimer has the points that it needs and the other side all points that
/// the claimer doesn't need. A node at a better position refers to such a node, or repeats its
/// reason.
///
/// A claim is within the limits of version 2 of the format, so the checker can judge it. No clause
/// says that it is valid. `watch` is told now and then how far the search is.
///
/// # Errors
///
/// `Memory` if an allocation fails.
pub fn settle<W: Watch>(
    alloc: Global,
    g: &Game,
    limits: Limits,
    watch: &mut W,
) -> Result<Settling, Memory>
    requires kind { g.now.kind ≡ MakerBreaker }
    requires single { g.now.bias ≡ 1 }
    ensures answer { IfOk result (λ settling. IsSettled g.now settling.answer) }
    ensures expanded { IfOk result (λ settling. settling.expanded ≤ limits.positions) }
    ensures entries { IfOk result (λ settling. settling.entries ≤ limits.entries) }
{
    let found = search(alloc, g, limits, watch)?;
    let answer = match found.root {
        Some(pattern) => claimed(alloc, g, &found, pattern, watch)?,
        None => Settled::Unknown,
    };
    Ok(Settling {
        answer,
        expanded: found.known.expanded(),
        entries: found.known.entries(),
    })
}
