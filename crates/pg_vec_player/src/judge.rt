//! Whether a game on vectors is over and who has won, and what is claimed where a vector is lost.
ghost use Rattle.std.specs.Prelude.{◌≡◌, ◌<◌, ◌≤◌, ◌+◌, length, IfOk};
ghost use Rattle.pg_vec_player.specs.Prelude.{contains, remove, either, ending_by, judged_by, kept};
ghost use Rattle.pg_vec_player.specs.Prelude.{left_without, reply_vector};
ghost use Rattle.pg_vec_player.specs.Prelude.{answer_vector, with_target, vector_rules};
ghost use Rattle.pg_vec_player.specs.Prelude.{vector_spans};
ghost use Rattle.pg_gf2.specs.declared.game.TheConstants.{MAX_VECTORS};
ghost use Rattle.pg_vec_player.specs.Judge.{IsVecJudgeOf};

use pg_base::{Memory, PointSet, Score, Side};
use pg_game::{Illegal, Position};
use pg_gf2::{Row, VecGame, VecPlan, lowest_needed, lowest_unspanned, spans};
use pg_switch::or_lowest;
use std::alloc::Global;

/// How many vectors each side claims in a turn.
pub(crate) const BIAS: u8 = 1;

/// Judges positions of one game on vectors, and finds moves. No call after `new` takes memory.
#[derive(Drop)]
pub(crate) struct VecJudge {
    /// The vectors, and the target.
    vectors: Vec<u128>,
    /// Room for the rows of an elimination.
    rows: Vec<Row>,
}

/// The number of the target, which is that of the game's vectors.
fn target_of(g: &VecGame) -> u16
    ensures number { result ≡ length g.now.vectors }
{
    g.vectors.as_slice().len() as u16
}

/// The numbers below the limit that Y doesn't have.
fn kept(p: &Position, limit: u16) -> PointSet
    requires { limit ≤ MAX_VECTORS + 1 }
    ensures { contains result ≡ kept limit p.now }
{
    PointSet::all_below(limit).without(&p.y)
}

/// X's vectors with the set without x.
fn joined(p: &Position, set: &PointSet, x: u16) -> PointSet
    requires { x ≤ MAX_VECTORS }
    ensures { contains result ≡ either (contains p.now.x) (contains (remove set.now x)) }
{
    let mut others = *set;
    others.take(x);
    p.x.union(&others)
}

/// What isn't Y's, with the target and without the set.
fn left_without(p: &Position, n: u16, set: &PointSet) -> PointSet
    requires { n ≤ MAX_VECTORS }
    ensures { contains result ≡ left_without n p.now set.now }
{
    kept(p, n + 1).without(set)
}

impl VecJudge {
    /// A judge for the game. `Memory` says that there is no room for its vectors and the rows of
    /// their elimination.
    pub(crate) fn new(alloc: Global, g: &VecGame) -> Result<VecJudge, Memory>
        ensures { IfOk result (λ judge. IsVecJudgeOf judge g.now) }
    {
        let mut vectors = g.vectors.as_slice().to_vec(alloc)?;
        vectors.push(g.target)?;
        let rows = Vec::with_capacity(alloc, vectors.len())?;
        Ok(VecJudge { vectors, rows })
    }

    /// Whether the target is the sum of some vectors of the set.
    fn spans_target(&mut self, g: &VecGame, set: &PointSet) -> bool
        requires { IsVecJudgeOf self.old g.now }
        ensures spans { result
            ≡ vector_spans (with_target g.now) (contains set.now) (length g.now.vectors) }
        ensures kept { IsVecJudgeOf self.new g.now }
    {
        spans(&mut self.rows, self.vectors.as_slice(), set, target_of(g))
    }

    /// The outcome of the position, and None exactly where it isn't over.
    pub(crate) fn ending(&mut self, g: &VecGame, p: &Position) -> Option<Score>
        requires { IsVecJudgeOf self.old g.now }
        ensures ending { result ≡ ending_by (vector_rules g.now) p.now }
        ensures kept { IsVecJudgeOf self.new g.now }
    {
        if self.spans_target(g, &p.x) {
            return Some(Score::XWins);
        }
        let left = kept(p, target_of(g));
        if self.spans_target(g, &left) {
            None
        } else {
            Some(Score::YWins)
        }
    }

    /// The side's reply to the loss of x, a member of the one set.
    fn reply(
        &mut self,
        g: &VecGame,
        side: Side,
        p: &Position,
        one: &PointSet,
        other: &PointSet,
        x: u16,
    ) -> u16
        requires made { IsVecJudgeOf self.old g.now }
        requires vector { x ≤ length g.now.vectors }
        ensures reply { result ≡ reply_vector (vector_spans (with_target g.now))
            (length g.now.vectors) side p.now one.now other.now x }
        ensures kept { IsVecJudgeOf self.new g.now }
    {
        let n = target_of(g);
        let vectors = self.vectors.as_slice();
        match side {
            Side::X => {
                let set = joined(p, one, x);
                let found = lowest_unspanned(&mut self.rows, vectors, n, &set, other);
                or_lowest(n, p, found)
            }
            Side::Y => {
                let left = left_without(p, n, one);
                let found = lowest_needed(&mut self.rows, vectors, n, &left, x, other);
                or_lowest(n, p, found)
            }
        }
    }

    /// The vector that the side claims where x is lost.
    pub(crate) fn answer(
        &mut self,
        g: &VecGame,
        side: Side,
        p: &Position,
        plan: &VecPlan,
        x: u16,
    ) -> u16
        requires made { IsVecJudgeOf self.old g.now }
        requires vector { x ≤ length g.now.vectors }
        ensures answer { result ≡ answer_vector (vector_spans (with_target g.now))
            (length g.now.vectors) side p.now plan.now x }
        ensures kept { IsVecJudgeOf self.new g.now }
    {
        if plan.first.has(x) {
            self.reply(g, side, p, &plan.first, &plan.second, x)
        } else if plan.second.has(x) {
            self.reply(g, side, p, &plan.second, &plan.first, x)
        } else {
            or_lowest(target_of(g), p, None)
        }
    }
}

/// The position after the side to move takes the vector in a position with that outcome, which may
/// be none yet.
///
/// # Errors
///
/// `Range` where the game has no such vector, else `Over` where it is over, else `Taken` where the
/// vector isn't free.
pub(crate) fn play(
    g: &VecGame,
    p: &Position,
    ending: Option<Score>,
    v: u16,
) -> Result<Position, Illegal>
    requires { ending ≡ ending_by (vector_rules g.now) p.now }
    ensures { result ≡ judged_by (vector_rules g.now) p.now v }
{
    if v >= target_of(g) {
        return Err(Illegal::Range);
    }
    if ending.is_some() {
        return Err(Illegal::Over);
    }
    if !p.is_free(v) {
        return Err(Illegal::Taken);
    }
    Ok(p.after(BIAS, v))
}
