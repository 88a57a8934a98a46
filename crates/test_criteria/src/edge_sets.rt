//! Trees and cuts beside the value.
ghost use Rattle.std.specs.Prelude.{◌≡◌, ◌<◌};
ghost use Rattle.pg_base.specs.declared.kind.Kind.TheVariants.{Switching};
ghost use Rattle.pg_game.specs.Game.{point_count, IsPosition};
ghost use Rattle.pg_game.specs.Judge.{IsMadeForGame};

use crate::numbered::{number_count, position_of, sets_of};
use pg_base::{Score, Side};
use pg_game::{Game, Judge, Position};
use pg_graph::Joiner;

/// What was found at all positions of a switching game.
#[derive(Clone, Copy)]
pub(crate) struct EdgeTally {
    /// How many positions X wins.
    pub won: u32,
    /// How many pairs of sets are trees, summed over the positions.
    pub trees: u32,
    /// How many pairs of sets are cuts, summed over the positions.
    pub cuts: u32,
    /// At how many positions X wins and there are no trees, or there are trees and X doesn't win,
    /// and so for Y and cuts.
    pub faults: u32,
}

/// How many of all pairs of sets, with e among the edges, are the side's at the position: X's
/// trees, or Y's cuts.
fn count_sets(g: &Game, joiner: &mut Joiner, p: &Position, side: Side) -> u32
    requires switching { g.now.kind ≡ Switching }
    requires small { point_count g.now < 12 }
    requires made { IsMadeForGame joiner.old g.now }
    requires position { IsPosition g.now p.now }
    ensures kept { joiner.new ≡ joiner.old }
{
    let mut count = 0u32;
    for number in 0..number_count(g.points() + 1) {
        let (first, second) = sets_of(g.points() + 1, number);
        let holds = match side {
            Side::X => pg_switch::trees_hold(g, joiner, p, &first, &second),
            Side::Y => pg_switch::cuts_hold(g, joiner, p, &first, &second),
        };
        count = count.saturating_add(u32::from(holds));
    }
    count
}

impl EdgeTally {
    /// The tally before any position.
    fn none() -> EdgeTally {
        EdgeTally {
            won: 0,
            trees: 0,
            cuts: 0,
            faults: 0,
        }
    }

    /// Adds what is found at a position.
    fn add(&mut self, value: Score, trees: u32, cuts: u32) {
        let (x_wins, y_wins) = (value == Score::XWins, value == Score::YWins);
        let fault = x_wins != (trees > 0) || y_wins != (cuts > 0);
        self.won = self.won.saturating_add(u32::from(x_wins));
        self.trees = self.trees.saturating_add(trees);
        self.cuts = self.cuts.saturating_add(cuts);
        self.faults = self.faults.saturating_add(u32::from(fault));
    }
}

/// Adds what is found at all positions where this side is to move.
fn tally_turn(judge: &mut Judge, g: &Game, joiner: &mut Joiner, turn: Side, tally: &mut EdgeTally)
    requires switching { g.now.kind ≡ Switching }
    requires small { point_count g.now < 12 }
    requires judge { IsMadeForGame judge.old g.now }
    requires joiner { IsMadeForGame joiner.old g.now }
    ensures judge { judge.new ≡ judge.old }
    ensures joiner { joiner.new ≡ joiner.old }
{
    for number in 0..number_count(g.points()) {
        if let Some(p) = position_of(g, number, turn, 1) {
            let trees = count_sets(g, joiner, &p, Side::X);
            let cuts = count_sets(g, joiner, &p, Side::Y);
            tally.add(pg_plain::value(judge, g, &p), trees, cuts);
        }
    }
}

/// What is found at all positions of a switching game, over all pairs of sets of its edges and e.
pub(crate) fn tally_sets(judge: &mut Judge, g: &Game, joiner: &mut Joiner) -> EdgeTally
    requires switching { g.now.kind ≡ Switching }
    requires small { point_count g.now < 12 }
    requires judge { IsMadeForGame judge.old g.now }
    requires joiner { IsMadeForGame joiner.old g.now }
    ensures judge { judge.new ≡ judge.old }
    ensures joiner { joiner.new ≡ joiner.old }
{
    let mut tally = EdgeTally::none();
    tally_turn(judge, g, joiner, Side::X, &mut tally);
    tally_turn(judge, g, joiner, Side::Y, &mut tally);
    tally
}
