//! The claim that a side plays.
ghost use Rattle.std.specs.Prelude.{◌≡◌, find, option_map};
ghost use Rattle.pg_player.specs.Player.{is_claim_of, is_win_of, chosen_claim};

use pg_base::{Goal, Side};
use pg_cert::{Cert, Claim};
use pg_game::Game;

/// Whether the claim is the side's, from the turn.
fn is_claim_of(side: Side, turn: Side, claim: &Claim) -> bool
    ensures { result ≡ is_claim_of side turn claim.now }
{
    claim.side == side && claim.turn == turn
}

/// Whether it is moreover a claim to win.
fn is_win_of(side: Side, turn: Side, claim: &Claim) -> bool
    ensures { result ≡ is_win_of side turn claim.now }
{
    is_claim_of(side, turn, claim) && matches!(claim.goal, Goal::Win)
}

/// The first claim of the side and the turn.
fn first_claim(claims: &[Claim], side: Side, turn: Side) -> Option<&Claim>
    ensures { option_map (λ claim. claim.now) result ≡ find (is_claim_of side turn) claims.now }
{
    claims.iter().find(|claim| is_claim_of(side, turn, claim))
}

/// The first claim of the side and the turn to win.
fn first_win(claims: &[Claim], side: Side, turn: Side) -> Option<&Claim>
    ensures { option_map (λ claim. claim.now) result ≡ find (is_win_of side turn) claims.now }
{
    claims.iter().find(|claim| is_win_of(side, turn, claim))
}

/// The first claim of the side and the game's turn to win, else the first of that side and turn.
#[tactic(auto, unfolding(crate::specs::Player::chosen_claim))]
pub(crate) fn chosen_claim<'a>(g: &Game, cert: &'a Cert, side: Side) -> Option<&'a Claim>
    ensures { option_map (λ claim. claim.now) result ≡ chosen_claim g.now cert.now side }
{
    let claims = cert.claims.as_slice();
    match first_win(claims, side, g.turn) {
        Some(claim) => Some(claim),
        None => first_claim(claims, side, g.turn),
    }
}
