//! The side that the program plays.
ghost use Rattle.std.specs.Prelude.{◌≡◌, find, option_map};
ghost use Rattle.pg_duel.specs.Sides.{begins, side_by};

use pg_base::Side;
use pg_cert::{Cert, Claim};
use pg_game::Game;

/// The first claim of those from a turn.
fn first_from(claims: &[Claim], turn: Side) -> Option<&Claim>
    ensures { option_map (λ claim. claim.now) result ≡ find (begins turn) claims.now }
{
    claims.iter().find(|claim| claim.turn == turn)
}

/// The side that is asked for, or that of the first claim from the game's turn.
pub(crate) fn side_by(asked: Option<Side>, game: &Game, cert: &Cert) -> Side
    ensures { result ≡ side_by asked game.now.turn cert.now }
{
    if let Some(side) = asked {
        return side;
    }
    match first_from(cert.claims.as_slice(), game.turn) {
        Some(claim) => claim.side,
        None => game.turn.other(),
    }
}
