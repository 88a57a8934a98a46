//! A player of one side of a connectivity game by a checked claim.
ghost use Rattle.std.specs.Prelude.{◌≡◌, ℕ, List, Some, None, Err, true, false, IfOk, IfErr};
ghost use Rattle.std.specs.Prelude.{IfSome, IsTrue, ◌↔◌, option_map};
ghost use Rattle.pg_span.specs.Prelude.{Win, ending_by, judged_by, reaches, ForcesBy, IsPlayBy};
ghost use Rattle.pg_span.specs.Prelude.{played_by};
ghost use Rattle.pg_span.specs.Player.{is_span_claim_of, chosen_span_claim, span_start, SpanWaits};
ghost use Rattle.pg_span.specs.Player.{MakesSpanMove, MovesInSpan, AnswersInSpan};
ghost use Rattle.pg_span.specs.Playing.{IsSpanDue};
ghost use Rattle.pg_span.specs.Game.{span_rules_of};
ghost use Rattle.pg_span.specs.Valid.{IsBodyAt};

use crate::cert::{SpanCert, SpanClaim};
use crate::check::SpanChecked;
use crate::game::SpanGame;
use crate::judge::{BIAS, SpanJudge, play};
use crate::plan::{TreePlan, own_move, trees_of};
use pg_base::{Kind, Score, Side};
use pg_game::{Illegal, Position};
use std::alloc::Global;
use std::marker::Model;

/// A player of a connectivity game: it makes one side's own moves by a checked claim, and takes the
/// other side's replies.
///
/// A contract sees the game, the side, the position and the plan, which is what is left of the
/// claim's trees, or its parts. The position is always one after a legal play from the game's
/// marks, and the side forces its win from it. No call after `open` takes memory, and each takes a
/// time near-linear in the size of the game.
#[derive(Debug, Drop)]
pub struct SpanPlayer<'a> {
    game: &'a SpanGame,
    claim: &'a SpanClaim,
    position: Position,
    ending: Option<Score>,
    trees: TreePlan,
    judge: SpanJudge,
}

impl<'a> Model for SpanPlayer<'a> {
    ghost use Rattle.std.specs.Coded.{code_by, coded×};
    ghost use Rattle.std.proofs.Common.{refl};
    ghost use Rattle.pg_base.specs.contracts.side.Side as side_code;
    ghost use Rattle.pg_base.specs.declared.side.Side.{Side};
    ghost use Rattle.pg_game.specs.contracts.position.Position as position_code;
    ghost use Rattle.pg_game.specs.declared.position.Position.{Position};
    ghost use Rattle.pg_span.specs.contracts.cert.SpanBody as body_code;
    ghost use Rattle.pg_span.specs.declared.cert.SpanBody.{SpanBody};
    ghost use Rattle.pg_span.specs.contracts.game.SpanGame as game_code;
    ghost use Rattle.pg_span.specs.declared.game.SpanGame.{SpanGame};
    ghost use Rattle.pg_span.specs.Plan.{plan_of};
    ghost use Rattle.pg_span.specs.Player.{SpanPlay};
    ghost use Rattle.pg_span.specs.Playing.{IsSpanPlaying};

    ghost Value = { SpanPlay };

    ghost coded = { code_by (SpanGame × (Side × (Position × SpanBody)))
        (coded× game_code.the_row.coded
        (coded× side_code.the_row.coded
        (coded× position_code.the_row.coded body_code.the_row.coded)))
        (λ s. (s.game, (s.side, (s.position, s.plan)))) (λ t. record {
          game = t.0;
          side = t.1.0;
          position = t.1.1.0;
          plan = t.1.1.1;
        }) (λ _. refl) };

    ghost view = { λ a. record {
      game = a.game.now;
      side = a.claim.now.side;
      position = a.position;
      plan = plan_of a.claim.now.body a.trees;
    } };

    ghost invariant = { λ a. IsSpanPlaying a.game.now a.claim.now.side a.position
        (plan_of a.claim.now.body a.trees) a.ending a.judge };
}

/// Why no player can be opened.
#[derive(Clone, Copy, Debug, PartialEq, Eq)]
pub enum SpanOpen {
    /// No claim has that side and the game's turn.
    NoClaim,
    /// No memory is left.
    Memory,
}

/// Whether the two are one side.
fn is_same(a: Side, b: Side) -> bool
    ensures { IsTrue result ↔ (a ≡ b) }
{
    a == b
}

/// Whether the claim is the side's, from the turn.
fn is_claim_of(side: Side, turn: Side, claim: &SpanClaim) -> bool
    ensures { result ≡ is_span_claim_of side turn claim.now }
{
    claim.side == side && claim.turn == turn
}

/// The first claim of the side and the game's turn.
#[tactic(auto, unfolding(crate::specs::Player::chosen_span_claim))]
fn chosen_claim<'a>(g: &SpanGame, cert: &'a SpanCert, side: Side) -> Option<&'a SpanClaim>
    ensures { option_map (λ claim. claim.now) result ≡ chosen_span_claim g.now cert.now side }
{
    let claims = cert.claims.as_slice();
    claims.iter().find(|claim| is_claim_of(side, g.turn, claim))
}

impl<'a> SpanPlayer<'a> {
    /// A player of the side at the game's marks, by the certificate's first claim of that side and
    /// the game's turn.
    ///
    /// # Errors
    ///
    /// `NoClaim` exactly where no claim has that side and the game's turn, else `Memory` where no
    /// memory is found.
    pub fn open(alloc: Global, c: SpanChecked<'a>, side: Side) -> Result<SpanPlayer<'a>, SpanOpen>
        ensures chosen { IfOk result (λ player. option_map (λ claim. claim.body)
            (chosen_span_claim c.entry.game.now c.entry.cert.now side) ≡ Some player.plan) }
        ensures side { IfOk result (λ player. player.side ≡ side) }
        ensures game { IfOk result (λ player. player.game ≡ c.entry.game.now) }
        ensures position { IfOk result (λ player. player.position ≡ span_start c.entry.game.now) }
        ensures none { result ≡ Err SpanOpen.NoClaim
            → chosen_span_claim c.entry.game.now c.entry.cert.now side ≡ None }
        ensures missing { chosen_span_claim c.entry.game.now c.entry.cert.now side ≡ None
            → result ≡ Err SpanOpen.NoClaim }
    {
        let game = c.game;
        let Some(claim) = chosen_claim(game, c.cert, side) else {
            return Err(SpanOpen::NoClaim);
        };
        let Ok(mut judge) = SpanJudge::new(alloc, game) else {
            return Err(SpanOpen::Memory);
        };
        let position = Position {
            x: game.x,
            y: game.y,
            turn: game.turn,
            left: 1,
        };
        let ending = judge.ending(game, &position);
        Ok(SpanPlayer {
            game,
            claim,
            position,
            ending,
            trees: trees_of(&claim.body),
            judge,
        })
    }

    /// The side that is played. Its goal is to win.
    pub fn side(&self) -> Side
        ensures { result ≡ self.now.side }
    {
        self.claim.side
    }

    /// The kind whose words name the outcomes: maker and breaker.
    pub fn kind(&self) -> Kind
        ensures { result ≡ Kind.MakerBreaker }
    {
        Kind::MakerBreaker
    }

    /// The position, which is one after a legal play from the game's marks, and from which the side
    /// forces its win. While the game goes on the plan holds at it.
    pub fn position(&self) -> Position
        ensures exact { result ≡ self.now.position }
        ensures reached { (moves : List ℕ)
            × IsPlayBy (span_rules_of self.now.game) (span_start self.now.game) moves
            × (played_by (span_rules_of self.now.game) (span_start self.now.game) moves ≡ result) }
        ensures forced { ForcesBy (span_rules_of self.now.game) result self.now.side Win }
        ensures holds { (span_rules_of self.now.game).over result ≡ false
            → IsBodyAt self.now.game result self.now.side self.now.plan }
    {
        self.position
    }

    /// The outcome of the position, and None exactly where the game isn't over. The side has won by
    /// it.
    pub fn outcome(&self) -> Option<Score>
        ensures exact { result ≡ ending_by (span_rules_of self.now.game) self.now.position }
        ensures reached { IfSome result (λ score. reaches self.now.side Win score ≡ true) }
    {
        self.ending
    }

    /// Makes the own move at p after the last reply, where the player is to move in a game that
    /// goes on.
    fn make_move(&mut self, p: &Position, last: Option<u16>) -> u16
        requires { IsSpanDue self.old.game self.old.side p.now self.old.plan last }
        ensures { MakesSpanMove (record {
          game = self.old.game;
          side = self.old.side;
          position = p.now;
          plan = self.old.plan;
        }) self.new last result }
    {
        let made = own_move(
            &self.game.graph,
            &mut self.judge.joiner,
            p,
            &self.claim.body,
            self.trees,
            last,
        );
        let next = p.after(BIAS, made.edge);
        self.ending = self.judge.ending(self.game, &next);
        self.position = next;
        self.trees = made.trees;
        made.edge
    }

    /// Makes one move of the player where it is to move, and tells it. None comes exactly where the
    /// game is over or the other side is to move; then nothing changes.
    pub fn first(&mut self) -> Option<u16>
        ensures { MovesInSpan self.old self.new result }
    {
        if self.ending.is_some() || !is_same(self.position.turn, self.claim.side) {
            return None;
        }
        let position = self.position;
        Some(self.make_move(&position, None))
    }

    /// Plays v for the other side, and then makes the player's move where the game goes on, and
    /// tells it. None comes exactly where the game is over after v.
    ///
    /// # Errors
    ///
    /// `Range` where the game has no such edge, else `Over` where it is over, else `Taken` where
    /// the edge isn't free. Then nothing changes.
    pub fn answer(&mut self, v: u16) -> Result<Option<u16>, Illegal>
        requires { SpanWaits self.old }
        ensures answered { IfOk result (λ own. AnswersInSpan self.old self.new v own) }
        ensures refused { IfErr result
            (λ fault. judged_by (span_rules_of self.old.game) self.old.position v ≡ Err fault) }
        ensures same { IfErr result (λ _. self.new ≡ self.old) }
    {
        let replied = play(self.game, &self.position, self.ending, v)?;
        let ending = self.judge.ending(self.game, &replied);
        if ending.is_some() {
            self.position = replied;
            self.ending = ending;
            return Ok(None);
        }
        Ok(Some(self.make_move(&replied, Some(v))))
    }
}
