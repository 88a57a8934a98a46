//! A player's own moves on vectors.
ghost use Rattle.std.specs.Prelude.{◌≡◌, ◌≤◌, Option, length};
ghost use Rattle.pg_vec_player.specs.Prelude.{lost_vector, vec_move, with_target};
ghost use Rattle.pg_vec_player.specs.Prelude.{vector_spans};
ghost use Rattle.pg_vec_player.specs.Judge.{IsVecJudgeOf};

use crate::judge::VecJudge;
use pg_base::Side;
use pg_game::Position;
use pg_gf2::{VecGame, VecPlan};
use pg_switch::without_both;

/// An own move, and the plan that is left.
#[derive(Clone, Copy, Debug)]
pub(crate) struct Made {
    /// The vector.
    pub(crate) vector: u16,
    /// What is left of the plan.
    pub(crate) plan: VecPlan,
}

/// What is lost: the last reply, else the target.
fn lost_vector(g: &VecGame, last: Option<u16>) -> u16
    ensures { result ≡ lost_vector (length g.now.vectors) last }
{
    match last {
        Some(x) => x,
        None => g.vectors.as_slice().len() as u16,
    }
}

/// The own move after the last reply by the plan. It takes no memory.
pub(crate) fn own_move(
    judge: &mut VecJudge,
    g: &VecGame,
    side: Side,
    p: &Position,
    plan: &VecPlan,
    last: Option<u16>,
) -> Made
    requires made { IsVecJudgeOf judge.old g.now }
    requires last { lost_vector (length g.now.vectors) last ≤ length g.now.vectors }
    ensures own { vec_move (vector_spans (with_target g.now)) (length g.now.vectors) side p.now
        plan.now last ≡ record { vector = result.vector; plan = result.plan } }
    ensures kept { IsVecJudgeOf judge.new g.now }
{
    let x = lost_vector(g, last);
    let vector = judge.answer(g, side, p, plan, x);
    Made {
        vector,
        plan: VecPlan {
            first: without_both(&plan.first, x, vector),
            second: without_both(&plan.second, x, vector),
        },
    }
}
