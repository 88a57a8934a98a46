//! Whether there is a threat line, by trying every attack and every reply.
ghost use Rattle.std.specs.Prelude.{◌≡◌, ◌↔◌, ℕ, IsTrue};
ghost use Rattle.pg_plain.specs.Prelude.{attack_wins, Filling, has_threat_line};
ghost use Rattle.pg_plain.specs.Attacks.{LeadsWithin, ReplyLeads};

use crate::threats::{is_filling, is_forcing, is_going};
use pg_base::Side;
use pg_game::{Game, Position, may_attack};

/// Whether some attack fills a line.
fn can_fill(g: &Game, p: &Position, side: Side) -> bool
    ensures { IsTrue result ↔ ((v : ℕ) × Filling g.now p.now side v) }
{
    for v in 0..g.points() {
        if is_filling(g, p, side, v) {
            return true;
        }
    }
    false
}

/// Whether the attack at v forces some reply after which attacks and at most so many further forced
/// replies lead to a filled line.
#[cycle(attacks_and_replies)]
fn reply_leads(g: &Game, p: &Position, side: Side, v: u16, depth: u8) -> bool
    ensures { IsTrue result ↔ ReplyLeads depth g.now p.now side v }
{
    for u in 0..g.points() {
        if is_forcing(g, p, side, v, u)
            && leads_within(g, &g.after(&g.after(p, v), u), side, depth)
        {
            return true;
        }
    }
    false
}

/// Whether attacks and at most so many forced replies lead to a filled line.
#[cycle(attacks_and_replies)]
fn leads_within(g: &Game, p: &Position, side: Side, depth: u8) -> bool
    ensures { IsTrue result ↔ LeadsWithin depth g.now p.now side }
{
    if can_fill(g, p, side) {
        return true;
    }
    if depth == 0 {
        return false;
    }
    for v in 0..g.points() {
        if reply_leads(g, p, side, v, depth - 1) {
            return true;
        }
    }
    false
}

/// Whether the side to move has a threat line of at most that depth.
pub fn has_threat_line(g: &Game, p: &Position, depth: u8) -> bool
    ensures { result ≡ has_threat_line depth g.now p.now }
{
    is_going(g, p) && leads_within(g, p, p.turn, depth)
}

/// Whether the side to move wins by filling a line, and has a threat line of at most three forced
/// replies.
#[tactic(auto, unfolding(pg_game::specs::Decided::attack_wins))]
pub fn attack_wins(g: &Game, p: &Position) -> bool
    ensures { result ≡ attack_wins g.now p.now }
{
    may_attack(g.kind, p.turn) && has_threat_line(g, p, 3)
}
