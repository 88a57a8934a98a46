//! The rule by which a player moves.
ghost use Rattle.std.specs.Prelude.{◌≡◌};
ghost use Rattle.pg_player.specs.Rule.{rule_of};
ghost use Rattle.pg_player.specs.Stand.{body_of};

use crate::standing::Rest;
use pg_cert::{Body, Claim};

/// The rule by which a player moves: the kind of the body of the node where it stands.
#[derive(Clone, Copy, Debug, PartialEq, Eq)]
pub enum Rule {
    /// None: the game is over.
    Over,
    /// The move that the node names.
    Named,
    /// None: the other side is to move, and the node names what follows each of its replies.
    Replies,
    /// The other point of the pair of which the other side took one.
    Pairs,
    /// A point of greatest weight, for an avoider of least weight.
    Weights,
    /// An edge of one of two sets, each of which joins the terminals.
    Trees,
    /// An edge of one of two sets, each of which parts the terminals.
    Cuts,
    /// The next attack of a line of threats, or the point that completes a line.
    Threats,
    /// That of another node's position, which is no better for the player. A player never stands
    /// at such a node.
    Weaker,
}

/// The rule of a body.
fn rule_of(body: &Body) -> Rule
    ensures { result ≡ rule_of body.now }
{
    match body {
        Body::Over => Rule::Over,
        Body::Move { .. } => Rule::Named,
        Body::All(_) => Rule::Replies,
        Body::Pairs(_) => Rule::Pairs,
        Body::Potential => Rule::Weights,
        Body::Trees { .. } => Rule::Trees,
        Body::Cuts { .. } => Rule::Cuts,
        Body::Threat(_) => Rule::Threats,
        Body::Weaker { .. } => Rule::Weaker,
    }
}

/// The rule of what is left of a node's body.
pub(crate) fn rule_of_rest(claim: &Claim, rest: Rest) -> Rule
    ensures { result ≡ rule_of (body_of claim.now.nodes rest) }
{
    match rest {
        Rest::Whole(number) => match claim.nodes.as_slice().get(number) {
            Some(node) => rule_of(&node.body),
            None => Rule::Over,
        },
        Rest::Short(_) => Rule::Trees,
        Rest::Cut(_) => Rule::Cuts,
        Rest::Line(_, _) | Rest::Last(_) | Rest::Won => Rule::Threats,
    }
}
