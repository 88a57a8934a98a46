//! Potentials and pairs beside the value.
ghost use Rattle.std.specs.Prelude.{◌≡◌, ◌≢◌, ◌≤◌, ◌↔◌, IsTrue};
ghost use Rattle.pg_base.specs.declared.kind.Kind.TheVariants.{AvoiderEnforcer, Switching};
ghost use Rattle.pg_game.specs.Avoider.{AvoiderHolds};
ghost use Rattle.pg_game.specs.Game.{point_count, IsPosition};
ghost use Rattle.pg_game.specs.Judge.{IsMadeForGame};
ghost use Rattle.pg_game.specs.Potential.{PotentialHolds};
ghost use Rattle.pg_game.specs.Value.{reaches, value};

use crate::numbered::{number_count, position_of};
use pg_base::{Goal, Kind, Pairs, Side};
use pg_game::{Game, Judge, Position, reaches};

/// What was found at all positions of a game.
#[derive(Clone, Copy)]
pub(crate) struct Tally {
    /// At how many the potential holds.
    pub potentials: u32,
    /// How many sets of pairs hold, summed over the positions.
    pub pairings: u32,
    /// At how many the value reaches the goal.
    pub forced: u32,
    /// At how many a criterion holds and the value doesn't reach the goal.
    pub faults: u32,
}

/// A claim of a side in a game, and the sets of pairs to try for it.
#[derive(Clone, Copy)]
struct Claimed<'a> {
    side: Side,
    goal: Goal,
    pairings: &'a [Pairs],
}

/// Whether the potential holds, Avoider's or Breaker's by the kind.
pub(crate) fn potential_holds(g: &Game, p: &Position, side: Side) -> bool
    requires lines { g.now.kind ≢ Switching }
    requires position { IsPosition g.now p.now }
    ensures avoider { g.now.kind ≡ AvoiderEnforcer → IsTrue result ↔ AvoiderHolds g.now p.now }
    ensures breaker { g.now.kind ≢ AvoiderEnforcer
        → IsTrue result ↔ PotentialHolds g.now p.now side }
{
    match g.kind {
        Kind::AvoiderEnforcer => pg_potential::avoider::holds(g, p),
        Kind::MakerBreaker | Kind::MakerMaker | Kind::Switching => pg_potential::holds(g, p, side),
    }
}

/// How many of the sets of pairs hold.
fn count_pairings(g: &Game, p: &Position, side: Side, pairings: &[Pairs]) -> u32
    requires { IsPosition g.now p.now }
{
    let mut count = 0u32;
    for pairs in pairings {
        if pg_pairing::holds(g, p, side, pairs.as_slice()) {
            count = count.saturating_add(1);
        }
    }
    count
}

/// Whether the value of the position reaches the goal.
pub(crate) fn is_forced(judge: &mut Judge, g: &Game, p: &Position, side: Side, goal: Goal) -> bool
    requires made { IsMadeForGame judge.old g.now }
    requires position { IsPosition g.now p.now }
    ensures forced { result ≡ reaches side goal (value g.now p.now) }
    ensures kept { judge.new ≡ judge.old }
{
    reaches(side, goal, pg_plain::value(judge, g, p))
}

impl Tally {
    /// The tally before any position.
    fn none() -> Tally {
        Tally {
            potentials: 0,
            pairings: 0,
            forced: 0,
            faults: 0,
        }
    }

    /// Adds what is found at a position.
    fn add(&mut self, potential: bool, pairings: u32, forced: bool) {
        let fault = (potential || pairings > 0) && !forced;
        self.potentials = self.potentials.saturating_add(u32::from(potential));
        self.pairings = self.pairings.saturating_add(pairings);
        self.forced = self.forced.saturating_add(u32::from(forced));
        self.faults = self.faults.saturating_add(u32::from(fault));
    }
}

/// Adds what is found of the claim at the position.
fn tally_position(judge: &mut Judge, g: &Game, claim: &Claimed<'_>, p: &Position, tally: &mut Tally)
    requires lines { g.now.kind ≢ Switching }
    requires made { IsMadeForGame judge.old g.now }
    requires position { IsPosition g.now p.now }
    ensures kept { judge.new ≡ judge.old }
{
    let potential = potential_holds(g, p, claim.side);
    let pairings = count_pairings(g, p, claim.side, claim.pairings);
    let forced = is_forced(judge, g, p, claim.side, claim.goal);
    tally.add(potential, pairings, forced);
}

/// Adds what is found at all positions where this side is to move and still claims so many points
/// in its turn.
fn tally_turn(
    judge: &mut Judge,
    g: &Game,
    claim: &Claimed<'_>,
    turn: Side,
    left: u8,
    tally: &mut Tally,
)
    requires lines { g.now.kind ≢ Switching }
    requires small { point_count g.now ≤ 12 }
    requires made { IsMadeForGame judge.old g.now }
    ensures kept { judge.new ≡ judge.old }
{
    for number in 0..number_count(g.points()) {
        if let Some(p) = position_of(g, number, turn, left) {
            tally_position(judge, g, claim, &p, tally);
        }
    }
}

/// What is found of the side's claim to the goal at all positions of a game on lines, over the sets
/// of pairs.
pub(crate) fn tally_claim(
    judge: &mut Judge,
    g: &Game,
    side: Side,
    goal: Goal,
    pairings: &[Pairs],
) -> Tally
    requires lines { g.now.kind ≢ Switching }
    requires small { point_count g.now ≤ 12 }
    requires made { IsMadeForGame judge.old g.now }
    ensures kept { judge.new ≡ judge.old }
{
    let claim = Claimed {
        side,
        goal,
        pairings,
    };
    let mut tally = Tally::none();
    tally_turn(judge, g, &claim, Side::X, 1, &mut tally);
    for left in 1..g.bias + 1 {
        tally_turn(judge, g, &claim, Side::Y, left, &mut tally);
    }
    tally
}
