//! A player of one side by a checked claim.
ghost use Rattle.std.specs.Prelude.{◌≡◌, ◌-◌, ℕ, List, Some, None, Err, length, true, false, IfOk};
ghost use Rattle.std.specs.Prelude.{IfErr, IfSome, OnOk, if◌then◌else◌};
ghost use Rattle.pg_player.specs.Prelude.{arrives, start, is_over, outcome, judged_move};
ghost use Rattle.pg_player.specs.Prelude.{IsLegalPlay, played, reaches, Forces};
ghost use Rattle.pg_player.specs.Player.{Moves, Answers, MakesMove, TakesReply, Waits};
ghost use Rattle.pg_player.specs.Player.{chosen_claim};
ghost use Rattle.pg_player.specs.Rule.{rule_of};

use crate::choice::chosen_claim;
use crate::moves::own_move;
use crate::rule::{Rule, rule_of_rest};
use crate::standing::{Stand, replied, root};
use pg_base::{Goal, Kind, Memory, Score, Side};
use pg_cert::Claim;
use pg_check::Checked;
use pg_game::{Game, Illegal, Judge, Position, free_or_lowest, joiner_for};
use pg_graph::Joiner;
use std::alloc::Global;
use std::marker::Model;

/// A player: it makes one side's own moves by a claim of a checked certificate, and takes the other
/// side's replies.
///
/// A contract sees the game, the claim, the position, and where the player stands, with the
/// position that it imagines. The true position is always one after a legal play from the game's
/// marks, and the side forces the claim's goal from it. No call after `open` takes memory, and each
/// takes a time linear, or near-linear, in the size of the game, but for nodes that rest on weaker
/// positions one after the other, which it passes one by one.
#[derive(Debug, Drop)]
pub struct Player<'a> {
    game: &'a Game,
    claim: &'a Claim,
    position: Position,
    ending: Option<Score>,
    stand: Stand,
    judge: Judge,
    joiner: Option<Joiner>,
}

impl<'a> Model for Player<'a> {
    ghost use Rattle.std.specs.Prelude.{Option, ℕ};
    ghost use Rattle.std.specs.Coded.{code_by, coded×, coded_option, coded_ℕ};
    ghost use Rattle.std.proofs.Common.{refl};
    ghost use Rattle.pg_player.specs.InPlay.{IsPlaying};
    ghost use Rattle.pg_player.specs.Stand.{standing_of};
    ghost use Rattle.pg_player.specs.Player.{Play};
    ghost use Rattle.pg_game.specs.contracts.game.Game as game_code;
    ghost use Rattle.pg_game.specs.declared.game.Game.{Game};
    ghost use Rattle.pg_game.specs.contracts.position.Position as position_code;
    ghost use Rattle.pg_game.specs.declared.position.Position.{Position};
    ghost use Rattle.pg_cert.specs.contracts.cert.Claim as claim_code;
    ghost use Rattle.pg_cert.specs.declared.cert.Claim.{Claim};
    ghost use Rattle.pg_cert.specs.contracts.node.Body as body_code;
    ghost use Rattle.pg_cert.specs.declared.node.Body.{Body};

    ghost Value = { Play };

    ghost coded = { code_by (Game × (Claim × (Position × (Body × (Option ℕ × Position)))))
        (coded× game_code.the_row.coded
        (coded× claim_code.the_row.coded
        (coded× position_code.the_row.coded (coded× body_code.the_row.coded
        (coded× (coded_option coded_ℕ) position_code.the_row.coded))))) (λ s. (
          s.game,
          (s.claim, (s.position, (s.standing.body, (s.standing.last, s.standing.imagined)))),
        )) (λ t. record {
          game = t.0;
          claim = t.1.0;
          position = t.1.1.0;
          standing = record { body = t.1.1.1.0; last = t.1.1.1.1.0; imagined = t.1.1.1.1.1 };
        }) (λ _. refl) };

    ghost view = { λ a. record {
      game = a.game.now;
      claim = a.claim.now;
      position = a.position;
      standing = standing_of a.claim.now.nodes a.stand;
    } };

    ghost invariant = { λ a. IsPlaying a.game.now a.claim.now a.position
        (standing_of a.claim.now.nodes a.stand) a.ending a.judge a.joiner };
}

/// Why no player can be opened.
#[derive(Clone, Copy, Debug, PartialEq, Eq)]
pub enum OpenFault {
    /// No claim has that side and the game's turn.
    NoClaim,
    /// No memory is left.
    Memory,
}

impl<'a> Player<'a> {
    /// A player of the side at the game's marks. It plays the certificate's first claim of that
    /// side and the game's turn whose goal is to win, else the first of that side and turn, and
    /// comes to the claim's root.
    ///
    /// # Errors
    ///
    /// `NoClaim` exactly where no claim has that side and the game's turn, else `Memory` where no
    /// memory is found.
    pub fn open(alloc: Global, c: Checked<'a>, side: Side) -> Result<Player<'a>, OpenFault>
        ensures chosen { IfOk result
            (λ player. chosen_claim c.entry.game.now c.entry.cert.now side ≡ Some player.claim) }
        ensures side { IfOk result (λ player. player.claim.side ≡ side) }
        ensures game { IfOk result (λ player. player.game ≡ c.entry.game.now) }
        ensures position { IfOk result (λ player. player.position ≡ start c.entry.game.now) }
        ensures standing { IfOk result (λ player.
            arrives player.claim.nodes (length player.claim.nodes - 1) ≡ Some player.standing) }
        ensures none { result ≡ Err OpenFault.NoClaim
            → chosen_claim c.entry.game.now c.entry.cert.now side ≡ None }
        ensures missing { chosen_claim c.entry.game.now c.entry.cert.now side ≡ None
            → result ≡ Err OpenFault.NoClaim }
    {
        let game = c.game;
        let Some(claim) = chosen_claim(game, c.cert, side) else {
            return Err(OpenFault::NoClaim);
        };
        let Ok(mut judge) = Judge::new(alloc, game) else {
            return Err(OpenFault::Memory);
        };
        let Ok(joiner) = joiner_for(alloc, game) else {
            return Err(OpenFault::Memory);
        };
        let position = game.start();
        let ending = judge.over(game, &position);
        Ok(Player {
            game,
            claim,
            position,
            ending,
            stand: root(claim),
            judge,
            joiner,
        })
    }

    /// The goal of the claim that is played.
    pub fn goal(&self) -> Goal
        ensures { result ≡ self.now.claim.goal }
    {
        self.claim.goal
    }

    /// The side that is played.
    pub fn side(&self) -> Side
        ensures { result ≡ self.now.claim.side }
    {
        self.claim.side
    }

    /// The kind of the game that is played.
    pub fn kind(&self) -> Kind
        ensures { result ≡ self.now.game.kind }
    {
        self.game.kind
    }

    /// The position, which is one after a legal play from the game's marks, and from which the side
    /// forces the claim's goal.
    pub fn position(&self) -> Position
        ensures exact { result ≡ self.now.position }
        ensures reached { (moves : List ℕ) × IsLegalPlay self.now.game (start self.now.game) moves
            × (played self.now.game (start self.now.game) moves ≡ result) }
        ensures forced { Forces self.now.game result self.now.claim.side self.now.claim.goal }
    {
        self.position
    }

    /// The outcome of the position, and None exactly where the game isn't over. It reaches the
    /// claim's goal for the side.
    pub fn outcome(&self) -> Option<Score>
        ensures exact { result ≡ (if is_over self.now.game self.now.position
            then Some (outcome self.now.game self.now.position)
            else None) }
        ensures reached { IfSome result
            (λ score. reaches self.now.claim.side self.now.claim.goal score ≡ true) }
    {
        self.ending
    }

    /// The rule by which the player moves where it stands.
    pub fn rule(&self) -> Rule
        ensures { result ≡ rule_of self.now.standing.body }
    {
        rule_of_rest(self.claim, self.stand.rest)
    }

    /// Makes the own move, where the player is to move in a game that goes on.
    fn make_move(&mut self) -> u16
        requires going { is_over self.old.game self.old.position ≡ false }
        requires turn { self.old.position.turn ≡ self.old.claim.side }
        ensures { MakesMove self.old self.new result }
    {
        let made = own_move(self.game, self.claim, &mut self.joiner, self.stand);
        let point = free_or_lowest(self.game, &self.position, made.point);
        let next = self.game.after(&self.position, point);
        self.ending = self.judge.over(self.game, &next);
        self.position = next;
        self.stand = made.stand;
        point
    }

    /// Makes one move of the player where it is to move, and tells it. None comes exactly where the
    /// game is over or the other side is to move; then nothing changes. Where the player has
    /// several points in its turn it may be to move again.
    pub fn first(&mut self) -> Option<u16>
        ensures { Moves self.old self.new result }
    {
        if self.ending.is_some() || self.position.turn != self.claim.side {
            return None;
        }
        Some(self.make_move())
    }

    /// Takes the other side's point, and makes no move: `first` makes those that the player then
    /// owes.
    ///
    /// # Errors
    ///
    /// As those of `answer`. Then nothing changes.
    pub fn take_reply(&mut self, v: u16) -> Result<(), Illegal>
        requires { Waits self.old }
        ensures taken { OnOk result (TakesReply self.old self.new v) }
        ensures refused { IfErr result
            (λ fault. judged_move self.old.game self.old.position v ≡ Err fault) }
        ensures same { IfErr result (λ _. self.new ≡ self.old) }
    {
        let position = self.judge.play(self.game, &self.position, v)?;
        let reply = free_or_lowest(self.game, &self.stand.imagined, v);
        self.ending = self.judge.over(self.game, &position);
        self.stand = replied(self.game, self.claim, self.stand, reply);
        self.position = position;
        Ok(())
    }

    /// Plays v for the other side, and then makes one move of the player where it is to move, and
    /// tells it. None comes exactly where after v the game is over or the other side is to move.
    ///
    /// # Errors
    ///
    /// `Range` where the game has no such point, else `Over` where it is over, else `Taken` where
    /// the point isn't free. Then nothing changes.
    pub fn answer(&mut self, v: u16) -> Result<Option<u16>, Illegal>
        requires { Waits self.old }
        ensures answered { IfOk result (λ own. Answers self.old self.new v own) }
        ensures refused { IfErr result
            (λ fault. judged_move self.old.game self.old.position v ≡ Err fault) }
        ensures same { IfErr result (λ _. self.new ≡ self.old) }
    {
        self.take_reply(v)?;
        Ok(self.first())
    }
}
