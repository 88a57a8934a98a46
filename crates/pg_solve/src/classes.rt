//! Solving a switching game: its class, with the claims that show it.
ghost use Rattle.std.specs.Prelude.{◌≡◌, IfOk};
ghost use Rattle.pg_solve.specs.Prelude.{Switching, One, SetsHold};
ghost use Rattle.pg_solve.specs.EdgeClaims.{without_sets, AreClassClaims};
ghost use Rattle.pg_solve.specs.Solved.{IsClassified};

use crate::solution::{Class, Solution};
use pg_base::{Memory, Side};
use pg_cert::Cert;
use pg_game::Game;
use pg_lehman::{Class as Sets, class_certificate, classify};
use std::alloc::Global;

/// The class that the sets show.
fn class_of(sets: &Sets) -> Class
    ensures { result ≡ without_sets sets.now }
{
    match sets {
        Sets::Short { .. } => Class::Short,
        Sets::Cut { .. } => Class::Cut,
        Sets::First { .. } => Class::First,
    }
}

/// The claims of the sets at the game's marks, with X and then with Y to move first.
fn certificate_of(alloc: Global, game: &Game, sets: &Sets) -> Result<Cert, Memory>
    requires switching { game.now.kind ≡ Switching }
    requires sets { SetsHold game.now sets.now }
    ensures version { IfOk result (λ certificate. certificate.version ≡ One) }
    ensures claims { IfOk result
        (λ certificate. AreClassClaims game.now (without_sets sets.now) certificate.claims) }
{
    let (with_x, with_y) = (game.with_turn(Side::X), game.with_turn(Side::Y));
    class_certificate(alloc, &with_x, &with_y, game.points(), sets)
}

/// The class of the switching game, with its certificate.
pub(crate) fn classified(alloc: Global, game: &Game) -> Result<Solution, Memory>
    requires { game.now.kind ≡ Switching }
    ensures { IfOk result (IsClassified game.now) }
{
    let sets = classify(alloc, game)?;
    let certificate = certificate_of(alloc, game, &sets)?;
    Ok(Solution::Class {
        class: class_of(&sets),
        certificate,
    })
}
