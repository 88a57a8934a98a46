//! Answers by zones with their claims.
use crate::settled::{LIMITS, checked};
use pg_base::{Kind, Memory};
use pg_cert::Version;
use pg_dfpn::Settled;
use pg_game::Game;
use pg_limits::Unwatched;
use pg_plain::{game, part};
use pg_zone_proofs::settle;
use std::alloc::Global;

/// Whether Maker wins, by a claim that the checker accepts.
fn told(alloc: Global, g: &Game) -> Result<&'static str, Memory> {
    if g.kind != Kind::MakerBreaker || g.bias != 1 {
        return Ok("none");
    }
    match settle(alloc, g, LIMITS, &mut Unwatched)?.answer {
        Settled::Yes(claim) => checked(alloc, g, Version::Two, claim, "yes"),
        Settled::No(claim) => checked(alloc, g, Version::Two, claim, "no"),
        Settled::Unknown => Ok("unknown"),
    }
}

/// Whether the answer is the one that the row tells.
pub(crate) fn is_so(alloc: Global, row: &str) -> Option<bool> {
    let g = game(alloc, row)?;
    Some(told(alloc, &g).ok()? == part(row, 4))
}
