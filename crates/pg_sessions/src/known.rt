//! What is known of the values of a game, and where else it holds.
ghost use Rattle.std.specs.Prelude.{◌≡◌, ◌↔◌, IsTrue};
ghost use Rattle.pg_sessions.specs.Prelude.{Side, winner};
ghost use Rattle.pg_sessions.specs.Known.{HasNode, HaveNodes, known_by, won_by};

use pg_base::{Score, Side};
use pg_cert::{Cert, Claim};
use pg_game::Position;
use pg_solve::{Class, Solution};

/// A value of a game, with the claims that show it: wherever each of them has a node, the value is
/// the same.
#[derive(Debug, Drop)]
pub struct Known {
    /// The value.
    pub score: Score,
    /// What shows it.
    pub certificate: Cert,
}

/// Whether a node of the claim has the position.
fn has_node(claim: &Claim, position: &Position) -> bool
    ensures { IsTrue result ↔ HasNode position.now claim.now }
{
    for node in claim.nodes.as_slice() {
        if node.position().is_same(position) {
            return true;
        }
    }
    false
}

impl Known {
    /// Whether each claim has a node with the position, so that the value is the same there.
    pub fn holds_at(&self, position: &Position) -> bool
        ensures { IsTrue result ↔ HaveNodes position.now self.now.certificate }
    {
        for claim in self.certificate.claims.as_slice() {
            if !has_node(claim, position) {
                return false;
            }
        }
        true
    }
}

/// The score where a game of the class is won with this side to move.
fn class_score(class: Class, turn: Side) -> Score
    ensures { result ≡ won_by (winner class turn) }
{
    match (class, turn) {
        (Class::Short, _) | (Class::First, Side::X) => Score::XWins,
        (Class::Cut, _) | (Class::First, Side::Y) => Score::YWins,
    }
}

/// What is known of a game that was solved, by the side to move; None where its value stays
/// unknown.
pub(crate) fn known_by(solution: Solution, turn: Side) -> Option<Known>
    ensures { result ≡ known_by turn solution }
{
    match solution {
        Solution::Value { score, certificate } => Some(Known { score, certificate }),
        Solution::Class { class, certificate } => Some(Known {
            score: class_score(class, turn),
            certificate,
        }),
        Solution::Unknown => None,
    }
}
