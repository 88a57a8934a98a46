//! Whether a game is over and who has won, and which moves are legal.
ghost use Rattle.std.specs.Prelude.{◌≡◌, ◌≢◌, Some, None, IsOk, IfOk, if◌then◌else◌};
ghost use Rattle.pg_base.specs.declared.kind.Kind.TheVariants.{Switching};
ghost use Rattle.pg_game.specs.Fit.{AreBelow};
ghost use Rattle.pg_game.specs.Game.{point_count, is_over, outcome};
ghost use Rattle.pg_game.specs.Judge.{IsMadeForGame, HasJoiner, judged_move, room_of};

use crate::field::Field;
use crate::game::Game;
use crate::position::{Illegal, Position};
use crate::rules::{filling_result, race_result};
use crate::switching::joining_result;
use pg_base::{Kind, Memory, Score};
use pg_graph::Joiner;
use std::alloc::Global;
use std::marker::Model;

/// A joiner for the game's graph, and none for a game on lines.
///
/// # Errors
///
/// `Memory` where no memory is found; a game on lines needs none.
pub fn joiner_for(alloc: Global, g: &Game) -> Result<Option<Joiner>, Memory>
    ensures made { IfOk result (λ joiner. IsMadeForGame (room_of joiner) g.now) }
    ensures joined { IfOk result (λ joiner. HasJoiner joiner g.now) }
    ensures lines { g.now.kind ≢ Switching → IsOk result }
{
    match &g.field {
        Field::Lines(_) => Ok(None),
        Field::Graph(graph) => {
            let joiner = Joiner::new(alloc, graph)?;
            Ok(Some(joiner))
        }
    }
}

/// Judges positions and moves, with room to work in for games on graphs with a certain number of
/// vertices and edges.
#[derive(Debug, Drop)]
pub struct Judge {
    joiner: Option<Joiner>,
}

/// The two numbers, both 0 for games on lines.
impl Model for Judge {
    ghost use Rattle.pg_graph.specs.Joiner.{Room};
    ghost use Rattle.pg_game.specs.Judge.{room_of};

    ghost Value = { Room };

    ghost view = { λ a. room_of a.joiner };
}

impl Judge {
    /// A judge for this game, and for all games on lines or on graphs with as many vertices and
    /// edges.
    ///
    /// # Errors
    ///
    /// `Memory` where no memory is found; a game on lines needs none. No other call of a judge
    /// takes memory.
    pub fn new(alloc: Global, g: &Game) -> Result<Judge, Memory>
        ensures made { IfOk result (λ judge. IsMadeForGame judge g.now) }
        ensures lines { g.now.kind ≢ Switching → IsOk result }
    {
        let joiner = joiner_for(alloc, g)?;
        Ok(Judge { joiner })
    }

    /// The outcome of the position, and None exactly where it isn't over.
    ///
    /// X's points must be points of the game, as they are at every position of it.
    /// The time is linear in the points of all lines, or near-linear in the edges.
    pub fn over(&mut self, g: &Game, p: &Position) -> Option<Score>
        requires made { IsMadeForGame self.old g.now }
        requires range { AreBelow p.now.x (point_count g.now) }
        ensures result { result
            ≡ (if is_over g.now p.now then Some (outcome g.now p.now) else None) }
        ensures kept { self.new ≡ self.old }
    {
        match &g.field {
            Field::Lines(_) => line_game_result(g, p),
            Field::Graph(graph) => match &mut self.joiner {
                Some(joiner) => joining_result(joiner, graph, p),
                None => unreachable!(),
            },
        }
    }

    /// The position after the side to move takes the point.
    ///
    /// X's points must be points of the game, as they are at every position of it.
    ///
    /// # Errors
    ///
    /// `Range` where the game has no such point, else `Over` where it is over, else `Taken` where
    /// the point isn't free.
    pub fn play(&mut self, g: &Game, p: &Position, v: u16) -> Result<Position, Illegal>
        requires made { IsMadeForGame self.old g.now }
        requires range { AreBelow p.now.x (point_count g.now) }
        ensures result { result ≡ judged_move g.now p.now v }
        ensures kept { self.new ≡ self.old }
    {
        if v >= g.points() {
            return Err(Illegal::Range);
        }
        if self.over(g, p).is_some() {
            return Err(Illegal::Over);
        }
        if !p.is_free(v) {
            return Err(Illegal::Taken);
        }
        Ok(g.after(p, v))
    }
}

/// The outcome of a position of a game on lines, and None where it isn't over.
fn line_game_result(g: &Game, p: &Position) -> Option<Score>
    requires { g.now.kind ≢ Kind.Switching }
    ensures { result ≡ (if is_over g.now p.now then Some (outcome g.now p.now) else None) }
{
    match g.kind {
        Kind::MakerBreaker => filling_result(g, p, Score::XWins, Score::YWins),
        Kind::AvoiderEnforcer => filling_result(g, p, Score::YWins, Score::XWins),
        Kind::MakerMaker => race_result(g, p),
        Kind::Switching => unreachable!(),
    }
}
