//! Claims of one node that stand on two sets, and those of a class.
ghost use Rattle.std.specs.Prelude.{◌≡◌, ◌<◌, IfOk};
ghost use Rattle.pg_lehman.specs.Prelude.{X, Y, One};
ghost use Rattle.pg_lehman.specs.ClassClaims.{class_claims, set_claim, sets_body, one_node};

use crate::certificates::two_claims;
use crate::class::Class;
use pg_base::{Goal, MAX_MEMBERS, Memory, PointSet, Side};
use pg_cert::{Body, Cert, Claim, EdgeSet, Node, Nodes};
use pg_game::Position;
use std::alloc::Global;

/// The body of the side: X's trees, or Y's cuts.
fn sets_body(side: Side, with_e: bool, first: EdgeSet, second: EdgeSet) -> Body
    ensures { result ≡ sets_body side with_e first second }
{
    match side {
        Side::X => Body::Trees {
            with_e,
            first,
            second,
        },
        Side::Y => Body::Cuts {
            with_e,
            first,
            second,
        },
    }
}

/// The claim that the side wins from the position, of one node.
fn one_node(alloc: Global, start: &Position, side: Side, body: Body) -> Result<Claim, Memory>
    ensures { IfOk result (λ claim. claim ≡ one_node start.now side body) }
{
    let mut nodes = Vec::new(alloc);
    nodes.push(Node {
        x: start.x,
        y: start.y,
        turn: start.turn,
        left: start.left,
        body,
    })?;
    Ok(Claim {
        turn: start.turn,
        side,
        goal: Goal::Win,
        nodes: Nodes::from_vec(nodes),
    })
}

/// The side's claim by its sets: X's by trees, or Y's by cuts.
fn set_claim(
    alloc: Global,
    start: &Position,
    side: Side,
    e: u16,
    one: &PointSet,
    other: &PointSet,
) -> Result<Claim, Memory>
    requires { e < MAX_MEMBERS }
    ensures { IfOk result (λ claim. claim ≡ set_claim start.now side e one.now other.now) }
{
    let with_e = one.has(e);
    let mut others = *one;
    others.take(e);
    let first = EdgeSet::new(alloc, others)?;
    let second = EdgeSet::new(alloc, *other)?;
    one_node(alloc, start, side, sets_body(side, with_e, first, second))
}

/// The certificate of a class, of version 1: a claim with X to move first and one with Y, at these
/// positions. Short has X's trees twice, Cut has Y's cuts twice, and where the first mover wins X
/// has trees and Y cuts. The number `e`, which stands for the further element, is named apart from
/// the others.
///
/// # Errors
///
/// `Memory` says that there is no room for the claims.
pub fn class_certificate(
    alloc: Global,
    with_x: &Position,
    with_y: &Position,
    e: u16,
    sets: &Class,
) -> Result<Cert, Memory>
    requires { e < MAX_MEMBERS }
    ensures version { IfOk result (λ certificate. certificate.version ≡ One) }
    ensures claims { IfOk result
        (λ certificate. certificate.claims ≡ class_claims with_x.now with_y.now e sets.now) }
{
    let (first, second) = match sets {
        Class::Short { a1, a2 } => (
            set_claim(alloc, with_x, Side::X, e, a1, a2)?,
            set_claim(alloc, with_y, Side::X, e, a1, a2)?,
        ),
        Class::Cut { d1, d2 } => (
            set_claim(alloc, with_x, Side::Y, e, d1, d2)?,
            set_claim(alloc, with_y, Side::Y, e, d1, d2)?,
        ),
        Class::First { a1, a2, d1, d2 } => (
            set_claim(alloc, with_x, Side::X, e, a1, a2)?,
            set_claim(alloc, with_y, Side::Y, e, d1, d2)?,
        ),
    };
    two_claims(alloc, first, second)
}
