//! Games of all kinds.
use pg_game::Game;
use pg_gf2::VecGame;
use pg_span::SpanGame;

/// A game of any kind, as its file says it.
#[derive(Debug, Drop)]
pub enum Board {
    /// A game on lines of points, or a switching game.
    Positional(Game),
    /// A connectivity game.
    Connectivity(SpanGame),
    /// A game on vectors.
    Vectors(VecGame),
}
