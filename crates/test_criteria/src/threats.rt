//! Threat lines beside the value.
ghost use Rattle.std.specs.Prelude.{◌≡◌, ◌≤◌};
ghost use Rattle.pg_game.specs.Game.{point_count, IsPosition};
ghost use Rattle.pg_game.specs.Judge.{IsMadeForGame};

use crate::lines::is_forced;
use crate::numbered::{number_count, position_of};
use pg_base::{Goal, Side};
use pg_game::{Game, Judge, Position};

/// What was found of threat lines at all positions of a game.
#[derive(Clone, Copy)]
pub(crate) struct ThreatTally {
    /// At how many the side to move wins by its next move.
    pub at_once: u32,
    /// At how many it wins by a threat line of at most three forced replies.
    pub attacks: u32,
    /// At how many the value is a win of the side to move.
    pub won: u32,
    /// At how many there is such a threat line, and the value is no win of the side to move.
    pub faults: u32,
}

impl ThreatTally {
    /// The tally before any position.
    fn none() -> ThreatTally {
        ThreatTally {
            at_once: 0,
            attacks: 0,
            won: 0,
            faults: 0,
        }
    }

    /// Adds what is found at a position.
    fn add(&mut self, at_once: bool, attack: bool, won: bool) {
        self.at_once = self.at_once.saturating_add(u32::from(at_once));
        self.attacks = self.attacks.saturating_add(u32::from(attack));
        self.won = self.won.saturating_add(u32::from(won));
        self.faults = self.faults.saturating_add(u32::from(attack && !won));
    }
}

/// Adds what is found at the position.
fn tally_position(judge: &mut Judge, g: &Game, p: &Position, tally: &mut ThreatTally)
    requires made { IsMadeForGame judge.old g.now }
    requires position { IsPosition g.now p.now }
    ensures kept { judge.new ≡ judge.old }
{
    let attack = pg_plain::attack_wins(g, p);
    let at_once = attack && pg_plain::has_threat_line(g, p, 0);
    let won = is_forced(judge, g, p, p.turn, Goal::Win);
    tally.add(at_once, attack, won);
}

/// Adds what is found at all positions at the beginning of this side's turn.
fn tally_turn(judge: &mut Judge, g: &Game, turn: Side, tally: &mut ThreatTally)
    requires small { point_count g.now ≤ 12 }
    requires made { IsMadeForGame judge.old g.now }
    ensures kept { judge.new ≡ judge.old }
{
    for number in 0..number_count(g.points()) {
        if let Some(p) = position_of(g, number, turn, 1) {
            tally_position(judge, g, &p, tally);
        }
    }
}

/// What is found of threat lines at all positions of a game in which each side claims one point a
/// turn.
pub(crate) fn tally_threats(judge: &mut Judge, g: &Game) -> ThreatTally
    requires small { point_count g.now ≤ 12 }
    requires made { IsMadeForGame judge.old g.now }
    ensures kept { judge.new ≡ judge.old }
{
    let mut tally = ThreatTally::none();
    tally_turn(judge, g, Side::X, &mut tally);
    tally_turn(judge, g, Side::Y, &mut tally);
    tally
}
