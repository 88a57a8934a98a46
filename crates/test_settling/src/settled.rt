//! Answers with their claims.
ghost use Rattle.pg_cert.specs.Limits.{IsClaim, IsOfVersion};

use pg_base::{Kind, Memory, Score};
use pg_cert::{Cert, Claim, Claims, Version};
use pg_check::check;
use pg_dfpn::{Settled, settle};
use pg_game::Game;
use pg_limits::{Limits, Unwatched};
use pg_plain::{game, part};
use std::alloc::Global;

/// What a search may take.
pub(crate) const LIMITS: Limits = Limits {
    positions: 20_000,
    entries: 400_000,
    first_steps: 1_000,
    steps: 60,
};

/// The word, or `refused` if the checker doesn't accept the claim.
pub(crate) fn checked(
    alloc: Global,
    g: &Game,
    version: Version,
    claim: Claim,
    word: &'static str,
) -> Result<&'static str, Memory>
    requires limits { IsClaim claim }
    requires version { IsOfVersion version claim }
{
    let mut claims = Vec::new(alloc);
    claims.push(claim)?;
    let cert = Cert {
        version,
        claims: Claims::from_vec(claims),
    };
    Ok(if check(alloc, g, &cert).is_ok() {
        word
    } else {
        "refused"
    })
}

/// Whether X wins, by a claim that the checker accepts.
fn told(alloc: Global, g: &Game) -> Result<&'static str, Memory> {
    if g.kind == Kind::Switching {
        return Ok("none");
    }
    match settle(alloc, g, Score::XWins, LIMITS, &mut Unwatched)?.answer {
        Settled::Yes(claim) => checked(alloc, g, Version::One, claim, "yes"),
        Settled::No(claim) => checked(alloc, g, Version::One, claim, "no"),
        Settled::Unknown => Ok("unknown"),
    }
}

/// Whether the answer is the one that the row tells.
pub(crate) fn is_so(alloc: Global, row: &str) -> Option<bool> {
    let g = game(alloc, row)?;
    Some(told(alloc, &g).ok()? == part(row, 4))
}
