//! Who wins a connectivity game, with what shows it.
ghost use Rattle.std.specs.Prelude.{◌≡◌, ◌∷◌, [], IfOk};
ghost use Rattle.pg_span.specs.Solved.{claims_of, parts_claim, solved_class, trees_claim};

use crate::cert::{SpanBody, SpanCert, SpanClaim, SpanClaims};
use pg_base::{Memory, PointSet, Points, Side};
use std::alloc::Global;

/// Who wins a connectivity game.
#[derive(Clone, Copy, Debug, PartialEq, Eq)]
pub enum SpanClass {
    /// Maker, whoever is to move.
    Maker,
    /// Breaker, whoever is to move.
    Breaker,
    /// The side to move.
    First,
}

/// Who wins a connectivity game, with what shows it.
#[derive(Debug, Drop)]
pub(crate) enum Solved {
    /// Maker, whoever is to move.
    Maker {
        /// One set.
        a1: PointSet,
        /// The other.
        a2: PointSet,
    },
    /// Breaker, whoever is to move.
    Breaker {
        /// The number of each vertex.
        parts: Points,
    },
    /// The side to move.
    First {
        /// The edge that Maker claims first.
        first: u16,
        /// One set.
        a1: PointSet,
        /// The other.
        a2: PointSet,
        /// The number of each vertex.
        parts: Points,
    },
}

/// X's claim by trees, with a side to move.
fn trees_claim(turn: Side, first: Option<u16>, a1: PointSet, a2: PointSet) -> SpanClaim
    ensures { result ≡ trees_claim turn first a1 a2 }
{
    SpanClaim {
        turn,
        side: Side::X,
        body: SpanBody::Trees { first, a1, a2 },
    }
}

/// Y's claim by parts, with a side to move.
fn parts_claim(turn: Side, parts: Points) -> SpanClaim
    ensures { result ≡ parts_claim turn parts }
{
    SpanClaim {
        turn,
        side: Side::Y,
        body: SpanBody::Parts(parts),
    }
}

/// The certificate of two claims.
fn two_claims(alloc: Global, first: SpanClaim, second: SpanClaim) -> Result<SpanCert, Memory>
    ensures { IfOk result (λ certificate. certificate.claims ≡ first ∷ second ∷ []) }
{
    let mut claims = Vec::new(alloc);
    claims.push(first)?;
    claims.push(second)?;
    Ok(SpanCert {
        claims: SpanClaims::from_vec(claims),
    })
}

impl Solved {
    /// The class.
    pub(crate) fn class(&self) -> SpanClass
        ensures { result ≡ solved_class self.now }
    {
        match self {
            Solved::Maker { .. } => SpanClass::Maker,
            Solved::Breaker { .. } => SpanClass::Breaker,
            Solved::First { .. } => SpanClass::First,
        }
    }

    /// The certificate: a claim with X and then one with Y to move first.
    pub(crate) fn into_certificate(self, alloc: Global) -> Result<SpanCert, Memory>
        ensures { IfOk result (λ certificate. certificate.claims ≡ claims_of self) }
    {
        match self {
            Solved::Maker { a1, a2 } => {
                let with_x = trees_claim(Side::X, None, a1, a2);
                two_claims(alloc, with_x, trees_claim(Side::Y, None, a1, a2))
            }
            Solved::Breaker { parts } => {
                let again = Points::from_vec(parts.as_slice().to_vec(alloc)?);
                let with_x = parts_claim(Side::X, again);
                two_claims(alloc, with_x, parts_claim(Side::Y, parts))
            }
            Solved::First {
                first,
                a1,
                a2,
                parts,
            } => {
                let with_x = trees_claim(Side::X, Some(first), a1, a2);
                two_claims(alloc, with_x, parts_claim(Side::Y, parts))
            }
        }
    }
}
