//! The leaf that decides a position.
ghost use Rattle.std.specs.Prelude.{◌≡◌, IfOk, IfSome};
ghost use Rattle.pg_dfpn.specs.Prelude.{Fits, lines_of};
ghost use Rattle.pg_dfpn.specs.Asking.{IsRead};
ghost use Rattle.pg_dfpn.specs.Drafted.{IsPlainBody};

use pg_base::{Kind, Memory, Pairs, Score, Side};
use pg_board::Board;
use pg_cert::Body;
use pg_game::{Game, defender};
use pg_leaf::leaf;
use pg_limits::Limits;
use pg_match::PairCache;
use pg_shared::shared_pairs;
use pg_transpositions::{Numbers, Signatures, first_numbers};
use std::alloc::Global;

/// What is asked of a game, and what may be used.
#[derive(Clone, Copy, Debug)]
pub(crate) struct Asked<'a> {
    pub(crate) game: &'a Game,
    pub(crate) question: Score,
    pub(crate) limits: Limits,
    /// The signatures of the game's positions.
    pub(crate) signatures: &'a Signatures,
    /// What the lines weigh at the game's own position.
    pub(crate) total: u128,
}

/// What the lines without a point of Y weigh.
pub(crate) fn total_at(board: &Board<'_>) -> u128 {
    match board.kind() {
        Kind::AvoiderEnforcer => board.avoider_total(),
        Kind::MakerBreaker | Kind::MakerMaker | Kind::Switching => board.total(Side::Y),
    }
}

/// How many steps shared pairs are looked for where the board stands.
fn steps_at(board: &Board<'_>, limits: &Limits) -> u32 {
    if board.plays() == 0 {
        limits.first_steps
    } else {
        limits.steps
    }
}

/// The answer at the position of the board with the leaf that shows it: by the first criterion that
/// decides it, else by shared pairs of the side that defends, where so many steps find them.
pub(crate) fn judge(
    alloc: Global,
    asked: Asked<'_>,
    steps: u32,
    board: &mut Board<'_>,
    cache: &mut PairCache,
) -> Result<Option<(bool, Body)>, Memory>
    requires reads { IsRead asked.game.now asked.question board.old cache.old }
    ensures game { board.new.game ≡ board.old.game }
    ensures fits { Fits cache.new (lines_of asked.entry.game.now) }
    ensures body { IfOk result (λ r. IfSome r (λ k. IsPlainBody k.1)) }
{
    let p = board.position();
    if let Some(found) = leaf(alloc, asked.game, asked.question, &p, board, cache)? {
        return Ok(Some(found));
    }
    let side = defender(asked.game.kind, asked.question);
    match shared_pairs(alloc, asked.game, &p, side, steps)? {
        Some(pairs) => Ok(Some((side == Side::X, Body::Pairs(Pairs::from_vec(pairs))))),
        None => Ok(None),
    }
}

/// The numbers of the position of the board, which was not met.
pub(crate) fn judged(
    alloc: Global,
    asked: Asked<'_>,
    board: &mut Board<'_>,
    cache: &mut PairCache,
) -> Result<Numbers, Memory>
    requires reads { IsRead asked.game.now asked.question board.old cache.old }
    ensures game { board.new.game ≡ board.old.game }
    ensures fits { Fits cache.new (lines_of asked.entry.game.now) }
{
    let steps = steps_at(board, &asked.limits);
    if let Some((answer, _body)) = judge(alloc, asked, steps, board, cache)? {
        return Ok(Numbers::leaf(answer));
    }
    let is_avoider = asked.game.kind == Kind::AvoiderEnforcer;
    let free = u32::from(board.free_count());
    Ok(first_numbers(is_avoider, total_at(board), asked.total, board.turn(), free))
}
