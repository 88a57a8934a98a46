//! Threat lines asked for on a game of 256 points: what `bench/parts.py` measures.
//!
//! Its words are `walk`, for twenty walks through the game by moves at random, or `still`, for two
//! thousand questions at its beginning, where no line lacks two points or fewer; and `ask`, or
//! another word where the positions are to be counted alone. It tells how many positions were
//! asked, and how many threat lines of each depth were found.
ghost use Rattle.std.specs.Prelude.{◌≡◌, ◌<◌, true, IfSome};
ghost use Rattle.pg_base.specs.declared.kind.Kind.TheVariants.{Switching};
ghost use Rattle.pg_game.specs.Game.{point_count};
ghost use Rattle.pg_game.specs.Position.{is_free};

use pg_base::Kind;
use pg_board::Board;
use pg_game::{Game, Position, may_attack};
use pg_threat::forced;
use std::alloc::{AllocError, Global};

/// How many points there are.
const POINTS: u16 = 256;

/// How many positions were asked, and how many threat lines of each depth were found.
#[derive(Drop)]
struct Tally {
    ask: bool,
    asked: u64,
    found: [u64; 4],
}

impl Tally {
    /// Asks at the board's position, where the side to move may attack.
    fn ask(&mut self, b: &mut Board<'_>, g: &Game)
        requires { b.old.game ≡ g.now }
        ensures { b.new ≡ b.old }
    {
        let turn = b.position().turn;
        if b.is_over() || g.bias != 1 || !may_attack(g.kind, turn) {
            return;
        }
        self.asked = self.asked.wrapping_add(1);
        if !self.ask {
            return;
        }
        if let Some(line) = forced(b, turn, 3) {
            let depth = usize::from(line.len / 2);
            if depth < 4 {
                self.found[depth] = self.found[depth].wrapping_add(1);
            }
        }
    }
}

/// A free point at or after the number, from 0 again after the last.
fn free_from(g: &Game, p: &Position, from: u16) -> Option<u16>
    ensures { IfSome result (λ v. (v < point_count g.now) × (is_free p.now v ≡ true)) }
{
    for v in from..g.points() {
        if p.is_free(v) {
            return Some(v);
        }
    }
    for v in 0..g.points() {
        if p.is_free(v) {
            return Some(v);
        }
    }
    None
}

/// One walk from the beginning of the game.
fn walk(b: &mut Board<'_>, g: &Game, seed: &mut u32, tally: &mut Tally)
    requires { b.old.game ≡ g.now }
{
    for _ in 0..POINTS {
        tally.ask(b, g);
        if b.is_over() {
            break;
        }
        *seed = seed.wrapping_mul(1_103_515_245).wrapping_add(12_345);
        let Some(v) = free_from(g, &b.position(), (*seed >> 16) as u16 % 256) else {
            break;
        };
        b.play(v);
    }
}

/// Asks a hundred times at the beginning of the game.
fn stand_still(b: &mut Board<'_>, g: &Game, tally: &mut Tally)
    requires { b.old.game ≡ g.now }
{
    for _ in 0..100 {
        tally.ask(b, g);
    }
}

/// The walks through the game, or the questions at its beginning.
fn run(alloc: Global, g: &Game, walks: bool, tally: &mut Tally) -> Option<()> {
    if g.kind == Kind::Switching {
        return None;
    }
    let mut seed = 1;
    for _ in 0..20 {
        let mut b = Board::open(alloc, g, &g.start()).ok()?;
        if walks {
            walk(&mut b, g, &mut seed, tally);
        } else {
            stand_still(&mut b, g, tally);
        }
    }
    Some(())
}

/// How many positions were asked, and how many threat lines of each depth were found.
pub(crate) fn told(alloc: Global, g: &Game, way: &str, what: &str) -> Result<String, AllocError> {
    let mut tally = Tally {
        ask: what == "ask",
        asked: 0,
        found: [0; 4],
    };
    if run(alloc, g, way == "walk", &mut tally).is_none() {
        return String::from_str(alloc, "no board, or no memory");
    }
    let asked = tally.asked;
    let [none, one, two, three] = tally.found;
    format!(in alloc; "{asked} asked, found {none} {one} {two} {three}")
}
