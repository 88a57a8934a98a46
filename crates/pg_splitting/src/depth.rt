//! How many turns lead to positions.
ghost use Rattle.std.specs.Prelude.{◌≡◌, ◌≤◌};
ghost use Rattle.pg_base.specs.declared.limits.TheConstants.{MAX_MEMBERS};
ghost use Rattle.pg_splitting.specs.Texts.{depth_of, turns_for, turns_to};

use pg_game::{Game, Position};
use pg_split::Piece;

/// Returns how many turns it takes to claim so many points, `bias` in each turn.
fn turns_for(points: u32, bias: u8) -> u32
    requires { points ≤ MAX_MEMBERS }
    ensures { result ≡ turns_for points bias }
{
    let bias = u32::from(bias);
    if bias == 0 {
        0
    } else {
        (points + (bias - 1)) / bias
    }
}

/// Returns how many turns lead from the game's own position to this one.
fn turns_to(game: &Game, position: &Position) -> u32
    ensures { result ≡ turns_to game.now position.now }
{
    let by_x = position.x.len().saturating_sub(game.x.len());
    let by_y = position.y.len().saturating_sub(game.y.len());
    by_x + turns_for(by_y, game.bias)
}

/// Returns how many turns lead to one of the positions at most.
pub(crate) fn depth_of(game: &Game, pieces: &[Piece]) -> u32
    ensures { result ≡ depth_of game.now pieces.now }
{
    let mut depth = 0;
    for piece in pieces {
        depth = depth.max(turns_to(game, &piece.position));
    }
    depth
}
