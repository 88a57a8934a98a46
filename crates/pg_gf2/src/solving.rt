//! Solving games on vectors.
ghost use Rattle.std.specs.Prelude.{◌≡◌, length, Some, IfOk};
ghost use Rattle.pg_gf2.specs.Prelude.{X, Y, IsWithinLimits, class_claims, named};
ghost use Rattle.pg_gf2.specs.Check.{IsVecValid};
ghost use Rattle.pg_gf2.specs.Classes.{at_turn, vector_class};

use crate::classify::vec_classify;
use crate::game::VecGame;
use pg_base::{Memory, Side};
use pg_cert::Cert;
use pg_game::Position;
use pg_lehman::{Class, class_certificate};
use std::alloc::Global;

/// The game's marks with a side to move.
fn at_turn(game: &VecGame, turn: Side) -> Position
    ensures { result ≡ at_turn game.now turn }
{
    Position {
        x: game.x,
        y: game.y,
        turn,
        left: 1,
    }
}

/// The class of a game on vectors by the values with X and with Y to move, shown by the sets that
/// show it, with a certificate of two claims that stand on these sets: one with X and one with Y to
/// move.
///
/// # Errors
///
/// `Memory` says that there is no room for the bases or the claims.
pub fn vec_solve(alloc: Global, game: &VecGame) -> Result<(Class, Cert), Memory>
    ensures class { IfOk result (λ found. vector_class game.now ≡ Some (named found.0)) }
    ensures valid { IfOk result (λ found. IsVecValid game.now found.1) }
    ensures limits { IfOk result (λ found. IsWithinLimits found.1) }
    ensures claims { IfOk result (λ found. found.1.claims ≡ class_claims (at_turn game.now X)
        (at_turn game.now Y) (length game.now.vectors) found.0) }
{
    let sets = vec_classify(alloc, game)?;
    let (with_x, with_y) = (at_turn(game, Side::X), at_turn(game, Side::Y));
    let e = game.vectors.as_slice().len() as u16;
    let certificate = class_certificate(alloc, &with_x, &with_y, e, &sets)?;
    Ok((sets, certificate))
}
