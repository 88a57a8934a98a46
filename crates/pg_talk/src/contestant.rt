//! Players of one side of a contest.
ghost use Rattle.std.specs.Prelude.{◌≡◌, ◌≤◌, true, Err, IfErr, IfOk, IfSome};
ghost use Rattle.pg_talk.specs.Prelude.{ending_by, judged_by, reaches};
ghost use Rattle.pg_base.specs.declared.limits.TheConstants.{MAX_MEMBERS};
ghost use Rattle.pg_talk.specs.Contender.{Answers, Contender, Moves, Waits};

use pg_base::{Goal, Kind, Score, Side};
use pg_game::Illegal;
use pg_player::Player;

/// A player that makes one side's moves by the rules of a contest, so that the outcome reaches its
/// goal, and takes the other side's replies.
///
/// What is seen of it is the contest, the side, the goal and the position.
pub trait Contestant {
    ghost contender: { Self → Contender };

    /// The side that is played.
    fn side(&self) -> Side
        ensures { result ≡ (contender self.now).side };

    /// What the side reaches.
    fn goal(&self) -> Goal
        ensures { result ≡ (contender self.now).goal };

    /// The kind whose words say the outcome.
    fn kind(&self) -> Kind
        ensures { result ≡ (contender self.now).contest.kind };

    /// The outcome of the position, and None exactly where the game isn't over. It reaches the goal
    /// for the side.
    fn outcome(&self) -> Option<Score>
        ensures exact { result
            ≡ ending_by (contender self.now).contest.rules (contender self.now).position }
        ensures reached { IfSome result
            (λ score. reaches (contender self.now).side (contender self.now).goal score ≡ true) };

    /// Makes one move of the player where it is to move, and tells it. None comes exactly where the
    /// game is over or the other side is to move; then nothing changes. In a turn of several points
    /// it may be to move again.
    fn first(&mut self) -> Option<u16>
        ensures { Moves (contender self.old) (contender self.new) result };

    /// Plays v for the other side, and then makes one move of the player where it is to move, and
    /// tells it. None comes exactly where after v the game is over or the other side is to move.
    ///
    /// # Errors
    ///
    /// `Range` where the game has no such point, else `Over` where it is over, else `Taken` where
    /// the point isn't free. Then nothing changes.
    fn answer(&mut self, v: u16) -> Result<Option<u16>, Illegal>
        requires { Waits (contender self.old) }
        ensures answered { IfOk result
            (λ own. Answers (contender self.old) (contender self.new) v own) }
        ensures refused { IfErr result
            (λ fault. judged_by (contender self.old).contest.rules (contender self.old).position v
            ≡ Err fault) }
        ensures same { IfErr result (λ _. contender self.new ≡ contender self.old) };

    // The law: a contest has few points.
    ghost small: { (s : Self) → (contender s).contest.rules.points ≤ MAX_MEMBERS };
}

impl<'a> Contestant for Player<'a> {
    ghost use Rattle.std.proofs.Common.{arith};
    ghost use Rattle.pg_game.proofs.Limits.{point_count-le};
    ghost use Rattle.pg_talk.specs.Contender.{player_of};

    ghost contender = { player_of };

    ghost small = { λ s. omega (arith, point_count-le s.game) };

    fn side(&self) -> Side {
        Player::side(self)
    }

    fn goal(&self) -> Goal {
        Player::goal(self)
    }

    fn kind(&self) -> Kind {
        Player::kind(self)
    }

    fn outcome(&self) -> Option<Score> {
        Player::outcome(self)
    }

    fn first(&mut self) -> Option<u16> {
        Player::first(self)
    }

    fn answer(&mut self, v: u16) -> Result<Option<u16>, Illegal> {
        Player::answer(self, v)
    }
}
