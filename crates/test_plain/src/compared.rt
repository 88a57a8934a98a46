//! What both searches find at the positions of small games.
ghost use Rattle.std.specs.Prelude.{◌≢◌, ◌≤◌};
ghost use Rattle.pg_base.specs.declared.kind.Kind.TheVariants.{Switching};

use crate::plain_threats::first_line;
use pg_base::Memory;
use pg_board::Board;
use pg_game::{Game, may_attack};
use pg_threat::{ThreatLine, forced};
use std::alloc::Global;

/// What was found.
#[derive(Drop)]
pub(crate) struct Tally {
    /// At how many positions the shortest threat line forces no reply, one, two, and three, and at
    /// how many there is none.
    pub(crate) found: [u32; 5],
    /// How often the two searches differ, or the board is left in another way.
    pub(crate) faults: u32,
}

/// The line that the search finds to a depth at the game's marks, where the side to move may attack
/// there.
pub(crate) fn line_at_start(
    alloc: Global,
    g: &Game,
    depth: u8,
) -> Result<Option<ThreatLine>, Memory>
    requires lines { g.now.kind ≢ Switching }
    requires few { depth ≤ 3 }
{
    let mut b = Board::open(alloc, g, &g.start())?;
    if b.is_over() || g.bias != 1 || !may_attack(g.kind, g.turn) {
        return Ok(None);
    }
    Ok(forced(&mut b, g.turn, depth))
}

/// Whether a line is found to a depth exactly where the shortest forces so many replies at most,
/// and is that.
fn is_due(found: Option<ThreatLine>, shortest: Option<ThreatLine>, depth: u8) -> bool {
    let Some(other) = shortest else {
        return found.is_none();
    };
    if other.len / 2 > depth {
        return found.is_none();
    }
    let Some(line) = found else {
        return false;
    };
    let mut same = line.len == other.len;
    for i in 0..7usize {
        same = same && (i >= usize::from(line.len) || line.points[i] == other.points[i]);
    }
    same
}

impl Tally {
    /// Compares the two searches at the game's marks, to each depth, where the side to move may
    /// attack.
    pub(crate) fn compare(&mut self, alloc: Global, g: &Game) -> Result<(), Memory>
        requires { g.now.kind ≢ Switching }
    {
        let p = g.start();
        let mut b = Board::open(alloc, g, &p)?;
        if b.is_over() || g.bias != 1 || !may_attack(g.kind, g.turn) {
            return Ok(());
        }
        let shortest = first_line(g, &p, g.turn);
        let replies = match shortest {
            Some(line) if line.len < 8 => usize::from(line.len / 2),
            _ => 4,
        };
        self.found[replies] = self.found[replies].saturating_add(1);
        for depth in 0..4u8 {
            let found = forced(&mut b, g.turn, depth);
            if !is_due(found, shortest, depth) || b.position() != p || b.plays() != 0 {
                self.faults = self.faults.saturating_add(1);
            }
        }
        Ok(())
    }
}
