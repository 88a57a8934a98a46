//! What a search is asked.
use pg_base::Score;
use pg_game::Game;

/// The game, and the score of which it is asked whether X reaches it.
#[derive(Clone, Copy, Debug)]
pub struct Asked<'a> {
    /// The game.
    pub game: &'a Game,
    /// The score: a win, or in Maker-Maker also a draw.
    pub question: Score,
}
