//! A player of one side of a game on vectors by a checked claim.
ghost use Rattle.std.specs.Prelude.{◌≡◌, ℕ, List, Some, None, Err, true, false, IfOk, IfErr};
ghost use Rattle.std.specs.Prelude.{IfSome, IsTrue, ◌↔◌, option_map};
ghost use Rattle.pg_vec_player.specs.Prelude.{Win, ending_by, judged_by, reaches, ForcesBy};
ghost use Rattle.pg_vec_player.specs.Prelude.{IsPlayBy, played_by, vector_rules};
ghost use Rattle.pg_vec_player.specs.Player.{is_vec_claim_of, chosen_vec_claim, plan_of_claim};
ghost use Rattle.pg_vec_player.specs.Player.{plan_of_body, vec_start, VecWaits, MakesVecMove};
ghost use Rattle.pg_vec_player.specs.Player.{MovesOnVectors, AnswersOnVectors, VecPlanHolds};
ghost use Rattle.pg_vec_player.specs.Player.{IsVecDue};

use crate::judge::{BIAS, VecJudge, play};
use crate::moves::own_move;
use pg_base::{Kind, PointSet, Score, Side};
use pg_cert::{Body, Cert, Claim};
use pg_game::{Illegal, Position};
use pg_gf2::{VecChecked, VecGame, VecPlan, with_e_named};
use std::alloc::Global;
use std::marker::Model;

/// A player of a game on vectors: it makes one side's own moves by a checked claim, and takes the
/// other side's replies.
///
/// A contract sees the game, the side, the position and the plan, which is what is left of the
/// claim's sets. The position is always one after a legal play from the game's marks, and the side
/// forces its win from it. No call after `open` takes memory. A call takes the time of a few
/// eliminations.
#[derive(Drop)]
pub struct VecPlayer<'a> {
    game: &'a VecGame,
    side: Side,
    position: Position,
    ending: Option<Score>,
    plan: VecPlan,
    judge: VecJudge,
}

impl<'a> Model for VecPlayer<'a> {
    ghost use Rattle.std.specs.Coded.{code_by, coded×};
    ghost use Rattle.std.proofs.Common.{refl};
    ghost use Rattle.pg_base.specs.contracts.side.Side as side_code;
    ghost use Rattle.pg_base.specs.declared.side.Side.{Side};
    ghost use Rattle.pg_game.specs.contracts.position.Position as position_code;
    ghost use Rattle.pg_game.specs.declared.position.Position.{Position};
    ghost use Rattle.pg_gf2.specs.contracts.plan.VecPlan as plan_code;
    ghost use Rattle.pg_gf2.specs.declared.plan.VecPlan.{VecPlan};
    ghost use Rattle.pg_gf2.specs.contracts.game.VecGame as game_code;
    ghost use Rattle.pg_gf2.specs.declared.game.VecGame.{VecGame};
    ghost use Rattle.pg_vec_player.specs.Player.{VecPlay, IsVecPlaying};

    ghost Value = { VecPlay };

    ghost coded = { code_by (VecGame × (Side × (Position × VecPlan)))
        (coded× game_code.the_row.coded
        (coded× side_code.the_row.coded
        (coded× position_code.the_row.coded plan_code.the_row.coded)))
        (λ s. (s.game, (s.side, (s.position, s.plan)))) (λ t. record {
          game = t.0;
          side = t.1.0;
          position = t.1.1.0;
          plan = t.1.1.1;
        }) (λ _. refl) };

    ghost view = { λ a. record {
      game = a.game.now;
      side = a.side;
      position = a.position;
      plan = a.plan;
    } };

    ghost invariant = { λ a. IsVecPlaying a.game.now a.side a.position a.plan a.ending a.judge };
}

/// Why no player can be opened.
#[derive(Clone, Copy, Debug, PartialEq, Eq)]
pub enum VecOpen {
    /// No claim has that side and the game's turn.
    NoClaim,
    /// No memory is left.
    Memory,
}

/// Whether the two are one side.
fn is_same(a: Side, b: Side) -> bool
    ensures { IsTrue result ↔ (a ≡ b) }
{
    a == b
}

/// Whether the claim is the side's, from the turn.
fn is_claim_of(side: Side, turn: Side, claim: &Claim) -> bool
    ensures { result ≡ is_vec_claim_of side turn claim.now }
{
    claim.side == side && claim.turn == turn
}

/// The first claim of the side and the game's turn.
#[tactic(auto, unfolding(crate::specs::Player::chosen_vec_claim))]
fn chosen_claim<'a>(g: &VecGame, cert: &'a Cert, side: Side) -> Option<&'a Claim>
    ensures { option_map (λ claim. claim.now) result ≡ chosen_vec_claim g.now cert.now side }
{
    let claims = cert.claims.as_slice();
    claims.iter().find(|claim| is_claim_of(side, g.turn, claim))
}

/// The sets of a body, and two empty ones where it has none.
fn plan_of_body(g: &VecGame, body: &Body) -> VecPlan
    ensures { result ≡ plan_of_body g.now body.now }
{
    match body {
        Body::Trees {
            with_e,
            first,
            second,
        }
        | Body::Cuts {
            with_e,
            first,
            second,
        } => VecPlan {
            first: with_e_named(g, *with_e, first.as_set()),
            second: *second.as_set(),
        },
        _ => VecPlan {
            first: PointSet::empty(),
            second: PointSet::empty(),
        },
    }
}

/// The sets of a claim's first node, and two empty ones where it has none.
fn plan_of(g: &VecGame, claim: &Claim) -> VecPlan
    ensures { result ≡ plan_of_claim g.now claim.now }
{
    match claim.nodes.as_slice().first() {
        Some(node) => plan_of_body(g, &node.body),
        None => VecPlan {
            first: PointSet::empty(),
            second: PointSet::empty(),
        },
    }
}

impl<'a> VecPlayer<'a> {
    /// A player of the side at the game's marks, by the certificate's first claim of that side and
    /// the game's turn.
    ///
    /// # Errors
    ///
    /// `NoClaim` exactly where no claim has that side and the game's turn, else `Memory` where no
    /// memory is found.
    pub fn open(alloc: Global, c: VecChecked<'a>, side: Side) -> Result<VecPlayer<'a>, VecOpen>
        ensures chosen { IfOk result (λ player. option_map (plan_of_claim c.entry.game.now)
            (chosen_vec_claim c.entry.game.now c.entry.cert.now side) ≡ Some player.plan) }
        ensures side { IfOk result (λ player. player.side ≡ side) }
        ensures game { IfOk result (λ player. player.game ≡ c.entry.game.now) }
        ensures position { IfOk result (λ player. player.position ≡ vec_start c.entry.game.now) }
        ensures none { result ≡ Err VecOpen.NoClaim
            → chosen_vec_claim c.entry.game.now c.entry.cert.now side ≡ None }
        ensures missing { chosen_vec_claim c.entry.game.now c.entry.cert.now side ≡ None
            → result ≡ Err VecOpen.NoClaim }
    {
        let game = c.game;
        let Some(claim) = chosen_claim(game, c.cert, side) else {
            return Err(VecOpen::NoClaim);
        };
        let Ok(mut judge) = VecJudge::new(alloc, game) else {
            return Err(VecOpen::Memory);
        };
        let position = Position {
            x: game.x,
            y: game.y,
            turn: game.turn,
            left: 1,
        };
        let ending = judge.ending(game, &position);
        Ok(VecPlayer {
            game,
            side,
            position,
            ending,
            plan: plan_of(game, claim),
            judge,
        })
    }

    /// The side that is played. Its goal is to win.
    pub fn side(&self) -> Side
        ensures { result ≡ self.now.side }
    {
        self.side
    }

    /// The kind whose words name the outcomes: short and cut.
    pub fn kind(&self) -> Kind
        ensures { result ≡ Kind.Switching }
    {
        Kind::Switching
    }

    /// The position, which is one after a legal play from the game's marks, and from which the side
    /// forces its win. While the game goes on the plan holds at it.
    pub fn position(&self) -> Position
        ensures exact { result ≡ self.now.position }
        ensures reached { (moves : List ℕ)
            × IsPlayBy (vector_rules self.now.game) (vec_start self.now.game) moves
            × (played_by (vector_rules self.now.game) (vec_start self.now.game) moves ≡ result) }
        ensures forced { ForcesBy (vector_rules self.now.game) result self.now.side Win }
        ensures holds { (vector_rules self.now.game).over result ≡ false
            → VecPlanHolds self.now.game self.now.side result self.now.plan }
    {
        self.position
    }

    /// The outcome of the position, and None exactly where the game isn't over. The side has won by
    /// it.
    pub fn outcome(&self) -> Option<Score>
        ensures exact { result ≡ ending_by (vector_rules self.now.game) self.now.position }
        ensures reached { IfSome result (λ score. reaches self.now.side Win score ≡ true) }
    {
        self.ending
    }

    /// Makes the own move at p after the last reply, where the player is to move in a game that
    /// goes on.
    fn make_move(&mut self, p: &Position, last: Option<u16>) -> u16
        requires { IsVecDue self.old.game self.old.side p.now self.old.plan last }
        ensures { MakesVecMove (record {
          game = self.old.game;
          side = self.old.side;
          position = p.now;
          plan = self.old.plan;
        }) self.new last result }
    {
        let made = own_move(&mut self.judge, self.game, self.side, p, &self.plan, last);
        let next = p.after(BIAS, made.vector);
        self.ending = self.judge.ending(self.game, &next);
        self.position = next;
        self.plan = made.plan;
        made.vector
    }

    /// Makes one move of the player where it is to move, and tells it. None comes exactly where the
    /// game is over or the other side is to move; then nothing changes.
    pub fn first(&mut self) -> Option<u16>
        ensures { MovesOnVectors self.old self.new result }
    {
        if self.ending.is_some() || !is_same(self.position.turn, self.side) {
            return None;
        }
        let position = self.position;
        Some(self.make_move(&position, None))
    }

    /// Plays v for the other side, and then makes the player's move where the game goes on, and
    /// tells it. None comes exactly where the game is over after v.
    ///
    /// # Errors
    ///
    /// `Range` where the game has no such vector, else `Over` where it is over, else `Taken` where
    /// the vector isn't free. Then nothing changes.
    pub fn answer(&mut self, v: u16) -> Result<Option<u16>, Illegal>
        requires { VecWaits self.old }
        ensures answered { IfOk result (λ own. AnswersOnVectors self.old self.new v own) }
        ensures refused { IfErr result
            (λ fault. judged_by (vector_rules self.old.game) self.old.position v ≡ Err fault) }
        ensures same { IfErr result (λ _. self.new ≡ self.old) }
    {
        let replied = play(self.game, &self.position, self.ending, v)?;
        let ending = self.judge.ending(self.game, &replied);
        if ending.is_some() {
            self.position = replied;
            self.ending = ending;
            return Ok(None);
        }
        Ok(Some(self.make_move(&replied, Some(v))))
    }
}
